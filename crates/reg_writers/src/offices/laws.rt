//! The laws of commands of many offices. The functions do nothing: their contracts are the laws.

ghost use Rattle.std.specs.Prelude.{◌≡◌, ◌≢◌, ℕ, true, false, List, [], Some, None, Ok, Err};
ghost use Rattle.reg_op.specs.Operations.{Op};
ghost use Rattle.reg_op.specs.Contents.{state, joined};
ghost use Rattle.reg_op.specs.Lists.{has};
ghost use Rattle.reg_office.specs.declared.fault.OfficeFault.{OfficeFault};
ghost use Rattle.reg_op.specs.declared.operation.OpBody.{OpBody as Body};
ghost use Rattle.reg_office.specs.Making.{made, numbered};
ghost use Rattle.reg_journal.specs.Again.{is_again};
ghost use Rattle.reg_writers.specs.Again.{IsMissed};
ghost use Rattle.reg_journal.specs.Journals.{Copy, Event, both, new_ops, IsWithin};
ghost use Rattle.reg_journal.specs.Journals as worlds;
ghost use Rattle.reg_writers.specs.Works.{Command, Work};
ghost use Rattle.reg_writers.specs.OfficeDesk.{Step, Begins, HasPrinted, Ended, start, is_locking, given, after};
ghost use Rattle.reg_writers.specs.Worlds.{IsAmong, file_read, register_read, work_of, all_steps};

/// Any number of commands of any offices, whose steps come in any order and stop anywhere: office files and registers are those
/// of a world of `reg_journal`, in which each command makes its operations at one moment. So `office_files_keep` holds of them.
pub fn each_interleaving_is_a_world()
    ensures world { (commands : ℕ → Command) (steps : List Step) →
        (events : List Event) × ((after commands steps start).world ≡ worlds.after events worlds.start) }
    // What stands at a path, what a command has read, and what it has made, was in a file of that world.
    ensures stands { (commands : ℕ → Command) (steps : List Step) (p : ℕ) → let d = after commands steps start in IsAmong (d.stands p) d.world }
    ensures read { (commands : ℕ → Command) (steps : List Step) (k : ℕ) (c : Copy) → let d = after commands steps start in
        register_read (d.stage k) ≡ Some c → IsAmong c d.world }
    ensures made { (commands : ℕ → Command) (steps : List Step) (k : ℕ) (v : Work) → let d = after commands steps start in
        work_of (d.stage k) ≡ Some v → IsAmong v.register d.world }
    // Two commands of an office never have the lock of its file at one time, and nobody else replaces the office file that a command
    // has read, until that command does.
    ensures alone { (commands : ℕ → Command) (steps : List Step) (j k : ℕ) → let d = after commands steps start in
        (commands j).office ≡ (commands k).office → is_locking (d.stage j) ≡ true → is_locking (d.stage k) ≡ true → j ≡ k }
    ensures current { (commands : ℕ → Command) (steps : List Step) (k : ℕ) (f : Copy) → let d = after commands steps start in
        file_read (d.stage k) ≡ Some f → f ≡ d.world.files (commands k).office }
    // Any two registers that ever were in a file join, and each is the state of what it reached.
    ensures joins { (commands : ℕ → Command) (steps : List Step) (b c : Copy) → let d = after commands steps start in
        IsAmong b d.world → IsAmong c d.world → (joined b.content c.content ≡ Ok (state (both b c))) × (b.content ≡ state b.reached) }
{}

/// If two commands have replaced their office files and gave the same id, they are the same command, and it gave it to one operation.
pub fn no_number_is_given_twice()
    ensures { (commands : ℕ → Command) (steps : List Step) (j k : ℕ) (o p : Op) → let d = after commands steps start in
        has (given (d.stage j)) o ≡ true → has (given (d.stage k)) p ≡ true → o.id ≡ p.id → (j ≡ k) × (o ≡ p) }
{}

/// What a command has made, and may have printed, is never lost.
pub fn nothing_made_is_lost()
    // It is in the office file from the moment when that is replaced, whatever comes.
    ensures kept { (commands : ℕ → Command) (steps later : List Step) (k : ℕ) → let d = after commands steps start in
        IsWithin (new_ops (given (d.stage k))) ((after commands later d).world.files (commands k).office).reached }
    // A command of the office that has not replaced the office file by then leaves a register that has it, whatever it began with.
    ensures left { (commands : ℕ → Command) (steps later : List Step) (j k : ℕ) (v : Work) →
        let d = after commands steps start in let e = after commands later d in
        (commands k).office ≡ (commands j).office → work_of (d.stage k) ≡ None → work_of (e.stage k) ≡ Some v →
        IsWithin (new_ops (given (d.stage j))) v.register.reached × (v.register.content ≡ state v.register.reached) }
{}

/// Whatever happened, and wherever commands were stopped: if no command of an office has its lock, the next one is done.
pub fn a_stop_is_mended()
    // A command that is not refused for its own words takes all its steps. The register that it leaves has all that the office made.
    ensures done { (commands : ℕ → Command) (steps : List Step) (k p q : ℕ) (os : List Op) →
        let a = commands k in let d = after commands steps start in let c = d.stands p in let f = d.world.files a.office in
        let e = after commands (all_steps k p q) d in
        ((j : ℕ) → (commands j).office ≡ a.office → is_locking (d.stage j) ≡ false) → d.stage k ≡ Begins →
        made (state (both c f)) a.office a.note (a.effects f.content c.content) ≡ Ok os →
        (e.stage k ≡ HasPrinted os) × ((e.stands q).content ≡ state (e.stands q).reached) × IsWithin c.reached (e.stands q).reached × IsWithin (e.world.files a.office).reached (e.stands q).reached }
    // One that is refused ends, and changes no file.
    ensures refused { (commands : ℕ → Command) (steps : List Step) (k p q : ℕ) (fault : OfficeFault) →
        let a = commands k in let d = after commands steps start in let c = d.stands p in let f = d.world.files a.office in
        let e = after commands (all_steps k p q) d in
        ((j : ℕ) → (commands j).office ≡ a.office → is_locking (d.stage j) ≡ false) → d.stage k ≡ Begins →
        made (state (both c f)) a.office a.note (a.effects f.content c.content) ≡ Err fault →
        (e.stage k ≡ Ended []) × (e.world ≡ d.world) × (e.stands ≡ d.stands) }
{}

/// A command that put its operations into the office file, and was stopped, is run again with the same effects and note. If the
/// register lacks them, the command is found again: `Once` of `reg_commands` then makes nothing, and leaves all that the office made.
pub fn a_command_is_found_again()
    ensures { (commands : ℕ → Command) (steps later : List Step) (k n : ℕ) (c : Copy) (effects : List Body) →
        let a = commands k in let d = after commands steps start in let e = after commands later d in let all = both c (e.world.files a.office) in
        given (d.stage k) ≡ numbered a.office n a.note effects → effects ≢ []
        → ((o : Op) → has (given (d.stage k)) o ≡ true → IsMissed c.content.seen all o)
        → is_again c.content.seen (state all).ops a.office a.note effects n ≡ true }
{}
