//! The import of texts, and the links that pass on to the entries that it makes.

ghost use Rattle.std.specs.Prelude.{List, IfOk, IfErr};
ghost use Rattle.reg_import.specs.declared.reading.ReadText.{ReadText};
ghost use Rattle.reg_import.specs.declared.action.TextAction.{TextAction};
ghost use Rattle.reg_import.specs.Plans.{PassesAll};
ghost use Rattle.reg_import.specs.Taking.{HasTaken};
ghost use Rattle.reg_desk.specs.ImportLinks.{ImportsLinked, IsUnlinked};

use crate::import::options::ImportOptions;
use reg_disorder::linking::{Link, Passed, links, pass_on};
use reg_import::Importing;
use reg_office::{Office, OfficeFault};
use reg_state::Register;
use std::alloc::Global;

/// A register after an import, and the links that passed on.
#[derive(Drop)]
pub struct Linked {
    pub register: Register,
    pub links: Vec<Link>,
}

/// Ends the import into this register, and then makes the links that pass on to the entries that were made.
pub fn link_on(
    alloc: Global,
    register: Register,
    options: &ImportOptions<'_>,
    importing: Importing,
) -> Result<Linked, OfficeFault>
    requires { (rs : List ReadText) × (ts : List TextAction) × HasTaken register options.now.replica options.now.note.now options.now.differs rs ts importing }
    ensures ok { IfOk result (λ l. (rs : List ReadText) (ts : List TextAction) → HasTaken register options.now.replica options.now.note.now options.now.differs rs ts importing
        → PassesAll options.now.keep_going ts → ImportsLinked options.now register rs l.register ts l.links.items) }
    ensures fault { IfErr result (λ f. (rs : List ReadText) (ts : List TextAction) → HasTaken register options.now.replica options.now.note.now options.now.differs rs ts importing
        → PassesAll options.now.keep_going ts → IsUnlinked options.now register rs f) }
{
    if importing.is_spent() {
        return Err(OfficeFault::CountSpent);
    }
    let Ok(before) = links(alloc, &register) else {
        return Err(OfficeFault::Memory);
    };
    let Ok(joined) = importing.join(alloc, register) else {
        return Err(OfficeFault::Memory);
    };
    let mut office = Office::new(options.replica, joined);
    let links = match pass_on(alloc, &mut office, &before, options.note) {
        Ok(Passed { links, ids: _ }) => links,
        Err(fault) => return Err(fault),
    };
    Ok(Linked {
        register: office.into_register(),
        links,
    })
}
