//! Taking the readings of texts, one after another.

ghost use Rattle.std.specs.Prelude.{◌≡◌, ◌≤◌, ◌||◌, ◌++◌, ◌∷◌, [], ℕ, Bool, List, length, IfOk};
ghost use Rattle.std.specs.List.{list_any};
ghost use Rattle.reg_op.specs.Contents.{Content};
ghost use Rattle.reg_import.specs.declared.reading.ReadText.{ReadText};
ghost use Rattle.reg_import.specs.declared.action.Differs.{Differs};
ghost use Rattle.reg_import.specs.declared.action.TextAction.{TextAction};
ghost use Rattle.reg_import.specs.Imports.{is_spent};
ghost use Rattle.reg_import.specs.Plans.{IsPassedPlan, Imports};
ghost use Rattle.reg_import.specs.Taking.{HasTaken};

use crate::action::{Differs, TextAction};
use crate::import::{Importing, TakenText};
use crate::index::index_of;
use crate::making::join_ops;
use crate::plan::{ImportState, Rules, step};
use crate::reading::ReadText;
use reg_office::{last_count, note_of};
use reg_state::Register;
use std::alloc::{AllocError, Global};
use uuid::Uuid;

// Whether a number was too large, or one of this action is.
fn or_spent(was: bool, told: &TextAction) -> bool
    ensures { result ≡ (was || is_spent told.now) }
{
    was || told.is_spent()
}

impl Importing {
    /// An import into the register, as the replica, with the note. It has taken nothing yet.
    pub fn new(
        alloc: Global,
        register: &Register,
        replica: Uuid,
        note: &str,
        differs: Differs,
    ) -> Result<Importing, AllocError>
        requires { length note.now ≤ 200 }
        ensures { IfOk result (HasTaken register.now replica note.now differs [] []) }
    {
        let index = index_of(alloc, register)?;
        let first = u64::from(last_count(register.seen(), replica)) + 1;
        let noted = note_of(alloc, note)?;
        let ops = Vec::new(alloc);
        Ok(Importing {
            replica,
            differs,
            note: noted,
            first,
            made: ImportState { index, ops },
            is_spent: false,
        })
    }

    /// Takes the reading of the next text.
    pub fn take(self, alloc: Global, reading: &ReadText) -> Result<TakenText, AllocError>
        ensures { IfOk result (λ t. (x : Content) (replica note : List ℕ) (differs : Differs) (rs : List ReadText) (ts : List TextAction)
            → HasTaken x replica note differs rs ts self → HasTaken x replica note differs (rs ++ reading.now ∷ []) (ts ++ t.told ∷ []) t.importing) }
    {
        let Importing {
            replica,
            differs,
            note,
            first,
            mut made,
            is_spent,
        } = self;
        let rules = Rules {
            differs,
            replica,
            first,
            note: &note,
        };
        let told = step(alloc, &rules, &mut made, reading)?;
        let is_spent = or_spent(is_spent, &told);
        Ok(TakenText {
            importing: Importing {
                replica,
                differs,
                note,
                first,
                made,
                is_spent,
            },
            told,
        })
    }

    /// Whether a number would exceed 4,294,967,295.
    pub fn is_spent(&self) -> bool
        ensures { (x : Content) (replica note : List ℕ) (differs : Differs) (rs : List ReadText) (ts : List TextAction)
            → HasTaken x replica note differs rs ts self.now → result ≡ list_any is_spent ts }
    {
        self.is_spent
    }

    /// The register after the import. It is the one into which the import began.
    pub fn join(self, alloc: Global, register: Register) -> Result<Register, AllocError>
        requires { (replica : List ℕ) × (note : List ℕ) × (differs : Differs) × (rs : List ReadText) × (ts : List TextAction) × HasTaken register replica note differs rs ts self }
        ensures { IfOk result (λ y. (keep_going : Bool) (replica note : List ℕ) (differs : Differs) (rs : List ReadText) (ts : List TextAction)
            → HasTaken register replica note differs rs ts self → IsPassedPlan keep_going ts → Imports register replica note differs keep_going rs y ts) }
    {
        let _by_id = register.ops();
        let Importing {
            replica,
            differs: _,
            note: _,
            first: _,
            made,
            is_spent: _,
        } = self;
        let ImportState { index, ops } = made;
        drop(index);
        let joined = join_ops(alloc, register, replica, ops)?;
        Ok(joined)
    }
}
