//! The laws of all processes that replace one file. The functions do nothing: their contracts are the laws.

ghost use Rattle.std.specs.Prelude.{◌≡◌, ◌⊎◌, ℕ, Bool, true, List, ◌∷◌, [], Option, Some, drop};
ghost use Rattle.byte_system.specs.Disk.{Call, Content, Ends, content, no_files, Disk, Event, after, Honest};
ghost use Rattle.byte_system.specs.System.{SystemState, calls, own};
ghost use Rattle.byte_protocol.specs.declared.replacing.Fault.{Fault};
ghost use Rattle.byte_protocol.specs.Replacing.{Abandons, Replaces};
ghost use Rattle.byte_protocol.specs.Cuts.{AreSparing};
ghost use Rattle.byte_protocol.specs.Unread.{HasRead, HasReadIf};
ghost use Rattle.byte_protocol.specs.Protocol.{Job, Deed, Move, Dies, Replaced, events, stages, Follows, IsStart, IsReplacedBy, IsPutUnread, AreRead, WasPut, AreFair, AreIdle, deeds, end, finished, IsPath, ArePaths, calls_of, sample_job, sample_deeds};

/// Each event leaves the content of OUT, or a process replaces exactly the content that it had read by what it makes of it, or one
/// that has not read OUT puts its file there.
pub fn no_work_is_lost()
    ensures { (j : Job) (first : Disk) → IsStart j first → (es : List Deed) (e : Deed) → Follows j first (e ∷ es) →
        let old = after first (events j es) in let new = after first (events j (e ∷ es)) in
        (content new j.out ≡ content old j.out) ⊎ (IsReplacedBy j e.by (stages es e.by) old new ⊎ IsPutUnread j e.by e.move old new) }
{}

/// OUT is at each moment the first content, or all the bytes of a process.
pub fn out_is_whole()
    ensures { (j : Job) (first : Disk) → IsStart j first → (es : List Deed) → Follows j first es →
        let now = content (after first (events j es)) j.out in
        (now ≡ content first j.out) ⊎ ((k : ℕ) × (x : Content) × (now ≡ Some (j.change k x))) }
{}

/// A process that has replaced OUT put what it makes of the content that it had read in the place of exactly that content.
pub fn replaced_what_it_read()
    ensures { (j : Job) (first : Disk) → IsStart j first → (k : ℕ) (x : Content) (es : List Deed) →
        Follows j first es → stages es k ≡ Replaced x → WasPut j first k x es }
{}

/// What no process takes away, such as an id that was seen, stays in OUT, once a process that replaced OUT has put it there, if OUT
/// is not replaced by one that did not read it.
pub fn what_is_kept_stays()
    ensures { (j : Job) (first : Disk) → IsStart j first → (p : Content → Bool) → ((k : ℕ) (x : Content) → p x ≡ true → p (Some (j.change k x)) ≡ true) →
        (es : List Deed) (k : ℕ) (x : Content) → Follows j first es → AreRead es → stages es k ≡ Replaced x →
        p (Some (j.change k x)) ≡ true → p (content (after first (events j es)) j.out) ≡ true }
{}

/// A trace of honest answers in which each process made the calls of a path of moves is one of processes that follow the
/// protocol, if their other calls are elsewhere.
pub fn paths_are_followed()
    ensures { (j : Job) (first : Disk) (trace : List Event) (paths : ℕ → List Move) → ArePaths j trace paths → Honest first trace →
        let es = deeds trace paths in AreFair j first es →
        (events j es ≡ trace) × Follows j first es × ((k : ℕ) → stages es k ≡ end (paths k)) }
{}

/// If the calls of each process are those of a path, there are paths of all processes.
pub fn each_path_is_chosen()
    ensures { (j : Job) (trace : List Event) (read : ℕ → Option (List ℕ)) →
        ((k : ℕ) → ∥ ((ms : List Move) × IsPath ms × AreIdle ms × (own k trace ≡ calls_of j k ms) × HasReadIf (read k) ms) ∥₁) →
        ∥ ((paths : ℕ → List Move) × ArePaths j trace paths × ((k : ℕ) → AreIdle (paths k)) × ((k : ℕ) → HasReadIf (read k) (paths k))) ∥₁ }
{}

/// The calls of `replace` are a path that leads to its end. Those that are no moves change no file. One that has read OUT puts no file
/// there unread.
pub fn replace_is_a_path()
    ensures { (j : Job) (left : Option ℕ) (read : Option (List ℕ)) (bytes : List ℕ) (old last : SystemState) →
        calls old ≡ [] → j.change old.me read ≡ bytes →
        Replaces j.out j.new left read bytes old last →
        (ms : List Move) × IsPath ms × AreIdle ms × (calls last ≡ calls_of j last.me ms) × (end ms ≡ finished read) × HasReadIf read ms }
{}

/// The calls of `replace` with a fault are such a path too.
pub fn a_fault_is_a_path()
    ensures { (j : Job) (k : ℕ) (read : Option (List ℕ)) (e : Fault) (now : List Call) →
        Abandons e j.out j.new read (j.change k read) [] now →
        (ms : List Move) × IsPath ms × AreIdle ms × (now ≡ calls_of j k ms) × HasReadIf read ms }
{}

/// One that stops in the middle of such a path, or is killed there, makes such a path too.
pub fn a_stop_is_a_path()
    ensures { (j : Job) (k n : ℕ) (ms : List Move) → IsPath ms → AreIdle ms →
        let made = drop n ms in let stopped = Dies (end made) ∷ made in
        IsPath stopped × AreIdle stopped × (calls_of j k stopped ≡ Ends ∷ drop n (calls_of j k ms)) × (HasRead ms → HasRead stopped) }
{}

/// Processes whose other calls change no file leave alone what the protocol is about, so `paths_are_followed` speaks of them.
pub fn idle_paths_are_fair()
    ensures { (j : Job) (first : Disk) (trace : List Event) (paths : ℕ → List Move) → ((k : ℕ) → AreIdle (paths k)) → AreFair j first (deeds trace paths) }
{}

/// One process alone replaces OUT, so the laws speak of something.
pub fn one_alone_is_done()
    ensures { IsStart sample_job no_files × Follows sample_job no_files sample_deeds × AreSparing sample_job no_files sample_deeds
        × (content (after no_files (events sample_job sample_deeds)) sample_job.out ≡ Some (7 ∷ [])) }
{}
