//! The laws of processes that put a file in the place of OUT unread, and of those that only read OUT. The functions do nothing: their
//! contracts are the laws.

ghost use Rattle.std.specs.Prelude.{◌≡◌, ◌⊎◌, ℕ, Bool, true, List, ◌∷◌, ◌++◌, Some};
ghost use Rattle.byte_system.specs.Disk.{Content, content, Disk, Event, Reads, after, Honest};
ghost use Rattle.byte_protocol.specs.Protocol.{Job, Deed, Move, Stage, Replaced, ReplacedUnread, Strays, events, stages, Follows, IsStart, AreRead, AreIdle, ArePaths, deeds, end};
ghost use Rattle.byte_protocol.specs.Unread.{HasRead, UnreadHave, WasPutUnread};

/// What OUT has at any moment, and no process takes away, stays in OUT, if each file that is put there unread later has it, too.
pub fn what_is_there_stays()
    ensures { (j : Job) (first : Disk) → IsStart j first → (p : Content → Bool) → ((k : ℕ) (x : Content) → p x ≡ true → p (Some (j.change k x)) ≡ true) →
        (later earlier : List Deed) → Follows j first (later ++ earlier) → UnreadHave j (λ c. p c ≡ true) later →
        p (content (after first (events j earlier)) j.out) ≡ true → p (content (after first (events j (later ++ earlier))) j.out) ≡ true }
{}

/// A process that has replaced OUT unread put there what it makes of nothing, whatever OUT was.
pub fn what_was_put_unread()
    ensures { (j : Job) (first : Disk) → IsStart j first → (k : ℕ) (es : List Deed) →
        Follows j first es → stages es k ≡ ReplacedUnread → WasPutUnread j first k es }
{}

/// What each file has that is put there unread, and no process takes away, is in OUT, once one of these has been put there.
pub fn what_unread_files_have_stays()
    ensures { (j : Job) (first : Disk) → IsStart j first → (p : Content → Bool) → ((k : ℕ) (x : Content) → p x ≡ true → p (Some (j.change k x)) ≡ true) →
        (es : List Deed) (k : ℕ) → Follows j first es → UnreadHave j (λ c. p c ≡ true) es → stages es k ≡ ReplacedUnread →
        p (content (after first (events j es)) j.out) ≡ true }
{}

/// Whoever reads OUT reads the first content, or all the bytes of a process.
pub fn a_reader_sees_a_whole_file()
    ensures { (j : Job) (first : Disk) → IsStart j first → (es : List Deed) (k : ℕ) (s : Stage) (c : Content) →
        Follows j first (record { by = k; move = Strays s (Reads j.out c) } ∷ es) →
        (c ≡ content first j.out) ⊎ ((m : ℕ) × (x : Content) × (c ≡ Some (j.change m x))) }
{}

/// And it sees what OUT had at any moment before, and no process takes away.
pub fn a_reader_sees_what_stays()
    ensures { (j : Job) (first : Disk) → IsStart j first → (p : Content → Bool) → ((k : ℕ) (x : Content) → p x ≡ true → p (Some (j.change k x)) ≡ true) →
        (later earlier : List Deed) (k : ℕ) (s : Stage) (c : Content) →
        Follows j first (record { by = k; move = Strays s (Reads j.out c) } ∷ (later ++ earlier)) → UnreadHave j (λ c. p c ≡ true) later →
        p (content (after first (events j earlier)) j.out) ≡ true → p c ≡ true }
{}

/// Where each process that replaces OUT makes the calls of one that has read it, no file is put there unread.
pub fn who_has_read_is_read()
    ensures { (trace : List Event) (paths : ℕ → List Move) → ((k : ℕ) → HasRead (paths k)) → AreRead (deeds trace paths) }
{}

/// So whatever processes that only call `replace` with what they have read put in OUT, and none takes away, is there.
pub fn what_readers_put_stays()
    ensures { (j : Job) (first : Disk) → IsStart j first → (p : Content → Bool) → ((k : ℕ) (x : Content) → p x ≡ true → p (Some (j.change k x)) ≡ true) →
        (trace : List Event) (paths : ℕ → List Move) → ArePaths j trace paths → ((k : ℕ) → AreIdle (paths k)) → ((k : ℕ) → HasRead (paths k)) → Honest first trace →
        (k : ℕ) (x : Content) → end (paths k) ≡ Replaced x → p (Some (j.change k x)) ≡ true → p (content (after first trace) j.out) ≡ true }
{}
