//! The law of many commands that change the register of one file. The function does nothing: its contract is the law.

ghost use Rattle.std.specs.Prelude.{◌≡◌, ◌⊎◌, ℕ, List};
ghost use Rattle.reg_writers.specs.Path.{Content as File, Event, start, happens, after};
ghost use Rattle.reg_writers.specs.Writers.{IsReplacedBy};
ghost use Rattle.reg_op.specs.Ids.{Id};
ghost use Rattle.reg_writers.specs.Registers.{AreChanges, HasSeen, HasGiven};

/// Any number of commands change the register of one file at the same time. Their steps come in any order, and each
/// command may be stopped after any step. Each makes operations and joins registers and pieces, one after the other.
pub fn nothing_printed_is_lost()
    // The file is replaced only by the result of a command that read exactly that file.
    ensures replaced { (change : ℕ → File → List ℕ) → AreChanges change → (file : File) (events : List Event) (e : Event) →
        let old = after change events (start file) in let new = happens change old e in
        (new.stands ≡ old.stands) ⊎ ((k : ℕ) × IsReplacedBy change k old new) }
    // An id that a command gave, and may have printed, is seen in the file from then on.
    ensures kept { (change : ℕ → File → List ℕ) → AreChanges change → (file : File) (events more : List Event) (k : ℕ) (i : Id) →
        let then = after change events (start file) in
        HasGiven (change k) (then.stage k) i → HasSeen (after change more then).stands i }
    // No two commands gave the same id, so no office gave a number twice.
    ensures once { (change : ℕ → File → List ℕ) → AreChanges change → (file : File) (events : List Event) (j k : ℕ) (i : Id) →
        let then = after change events (start file) in
        HasGiven (change j) (then.stage j) i → HasGiven (change k) (then.stage k) i → j ≡ k }
{}
