//! The laws of all commands that replace one file. The functions do nothing: their contracts are the laws.

ghost use Rattle.std.specs.Prelude.{◌≡◌, ◌⊎◌, ℕ, true, List, None, Some};
ghost use Rattle.reg_writers.specs.Path.{Content, NewFile, Event, Begins, HasPrinted, Replaced, start, happens, after};
ghost use Rattle.reg_writers.specs.Writers.{Commands, OnlyAdd, gave, IsReplacedBy, IsLeft, NoneClears, six_steps};
ghost use Rattle.reg_writers.specs.Desk.{Office, IsRead, numbers, DeskEvent, desk_after, desk_start, has_replaced, all_steps};

/// Each event leaves OUT as it is, or a command replaces exactly the content that it had read by the bytes that it makes
/// of it.
pub fn no_work_is_lost()
    ensures { (change : ℕ → Content → List ℕ) (x : Content) (events : List Event) (e : Event) →
        let old = after change events (start x) in let new = happens change old e in
        (new.stands ≡ old.stands) ⊎ ((k : ℕ) × IsReplacedBy change k old new) }
{}

/// If commands only add, an id that one of them gave is seen in OUT from then on.
pub fn ids_are_kept<I>()
    ensures { (c : Commands I) → OnlyAdd c → (x : Content) (events more : List Event) (k : ℕ) (i : I) →
        let then = after c.change events (start x) in
        gave c k (then.stage k) i ≡ true → c.seen (after c.change more then).stands i ≡ true }
{}

/// If commands only add, no two of them give one id.
pub fn one_who_gave<I>()
    ensures { (c : Commands I) → OnlyAdd c → (x : Content) (events : List Event) (j k : ℕ) (i : I) →
        let then = after c.change events (start x) in
        gave c j (then.stage j) i ≡ true → gave c k (then.stage k) i ≡ true → j ≡ k }
{}

/// An OUT.new that a stopped command left stays until somebody removes it. Until then OUT does not change.
pub fn what_is_left_blocks()
    ensures { (change : ℕ → Content → List ℕ) (x : Content) (events more : List Event) (n : NewFile) →
        let then = after change events (start x) in let later = after change more then in
        IsLeft then n → NoneClears more → (later.stands ≡ then.stands) × IsLeft later n }
{}

/// A command that begins while there is no OUT.new, and runs undisturbed, replaces OUT and prints its ids.
pub fn one_alone_is_done()
    ensures { (change : ℕ → Content → List ℕ) (x : Content) (events : List Event) (k : ℕ) →
        let then = after change events (start x) in let done = after change (six_steps k) then in
        then.beside ≡ None → then.stage k ≡ Begins →
        (done.stage k ≡ HasPrinted then.stands) × (done.stands ≡ Some (change k then.stands)) × (done.beside ≡ None) }
{}

/// An office gives no number twice. If two commands have replaced registers and gave the same number, each after reading
/// the office file, they are one command. It does not matter which registers they began with (old copies included), or
/// where other commands were stopped.
pub fn no_number_is_given_twice()
    ensures { (o : Office) → IsRead o → (change : ℕ → Content → List ℕ) (from : ℕ → Content) (events : List DeskEvent) (x : Content) (xs : ℕ → Content) (p q j k n : ℕ) →
        let desk = desk_after o change from events (desk_start x xs) in
        has_replaced ((desk.registers p).stage j) ≡ true → has_replaced ((desk.registers q).stage k) ≡ true →
        (numbers o).gives j (from j) n ≡ true → (numbers o).gives k (from k) n ≡ true → j ≡ k }
{}

/// An undisturbed command makes its new register, replaces the office file, replaces the register and prints, even if
/// there is no file yet.
pub fn one_alone_at_a_desk()
    ensures { (o : Office) (change : ℕ → Content → List ℕ) →
        let desk = desk_after o change (λ k. None) (all_steps 0 0) (desk_start None (λ p. None)) in
        ((desk.registers 0).stage 0 ≡ HasPrinted None) × ((desk.registers 0).stands ≡ Some (change 0 None)) × (desk.office.stage 0 ≡ Replaced None) }
{}
