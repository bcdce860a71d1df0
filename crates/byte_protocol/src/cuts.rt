//! What a loss of power leaves of the file. The functions do nothing: their contracts are the laws.

ghost use Rattle.std.specs.Prelude.{◌≡◌, ◌⊎◌, ℕ, Bool, true, List, ◌∷◌, ◌++◌, Some};
ghost use Rattle.byte_system.specs.Disk.{Content, content, Disk, SyncsFolder, after};
ghost use Rattle.byte_protocol.specs.Protocol.{Job, Deed, Stage, Replaced, Strays, events, Follows, IsStart, AreRead};
ghost use Rattle.byte_protocol.specs.Cuts.{IsLeft, IsSince, AreSparing};
ghost use Rattle.byte_protocol.specs.Unread.{UnreadHave};

/// After a loss of power OUT has a content that it had at a moment since its folder was synced.
pub fn what_is_left_was_there()
    ensures { (j : Job) (first : Disk) → IsStart j first → (es : List Deed) → Follows j first es → AreSparing j first es →
        (left : Disk) → IsLeft first (events j es) j.out left → IsSince first (events j es) j.out (content left j.out) }
{}

/// After a loss of power OUT is the first content, or all the bytes of a process.
pub fn what_is_left_is_whole()
    ensures { (j : Job) (first : Disk) → IsStart j first → (es : List Deed) → Follows j first es → AreSparing j first es →
        (left : Disk) → IsLeft first (events j es) j.out left →
        (content left j.out ≡ content first j.out) ⊎ ((k : ℕ) × (x : Content) × (content left j.out ≡ Some (j.change k x))) }
{}

/// What no process takes away survives a loss of power, once a process that replaced OUT has put it there and synced the folder, if
/// OUT is not replaced by one that did not read it.
pub fn what_is_synced_stays()
    ensures { (j : Job) (first : Disk) → IsStart j first → (p : Content → Bool) → ((k : ℕ) (x : Content) → p x ≡ true → p (Some (j.change k x)) ≡ true) →
        (later earlier : List Deed) (k : ℕ) (x : Content) →
        let es = later ++ (record { by = k; move = Strays (Replaced x) (SyncsFolder j.out) } ∷ earlier) in
        Follows j first es → AreSparing j first es → AreRead es → p (Some (j.change k x)) ≡ true →
        (left : Disk) → IsLeft first (events j es) j.out left → p (content left j.out) ≡ true }
{}

/// What OUT has when a process syncs its folder, and no process takes away, survives a loss of power, if each file that is put there
/// unread later has it, too.
pub fn what_is_there_when_synced_stays()
    ensures { (j : Job) (first : Disk) → IsStart j first → (p : Content → Bool) → ((k : ℕ) (x : Content) → p x ≡ true → p (Some (j.change k x)) ≡ true) →
        (later earlier : List Deed) (k : ℕ) (s : Stage) →
        let es = later ++ (record { by = k; move = Strays s (SyncsFolder j.out) } ∷ earlier) in
        Follows j first es → AreSparing j first es → UnreadHave j (λ c. p c ≡ true) later → p (content (after first (events j earlier)) j.out) ≡ true →
        (left : Disk) → IsLeft first (events j es) j.out left → p (content left j.out) ≡ true }
{}
