//! The laws of links. The functions do nothing: their contracts are the laws.

ghost use Rattle.std.specs.Prelude.{◌≡◌, ◌≢◌, ◌↔◌, ◌⊎◌, ℕ, true, List, Some};
ghost use Rattle.reg_op.specs.Ids.{Id};
ghost use Rattle.reg_op.specs.Contents.{Content};
ghost use Rattle.reg_op.specs.declared.operation.OpBody.{OpBody as Body};
ghost use Rattle.reg_op.specs.declared.status.Status.TheVariants.{Superseded};
ghost use Rattle.reg_op.specs.Rows.{Row, rows};
ghost use Rattle.reg_op.specs.Status.{enters, status};
ghost use Rattle.reg_report.specs.Conflicts.{KeyBytes, HasKey};
ghost use Rattle.reg_report.specs.Rows.{HasRow};
ghost use Rattle.reg_office.specs.Commands.{Does};
ghost use Rattle.reg_disorder.specs.declared.linking.link.Link.{Link as OneLink};
ghost use Rattle.reg_disorder.specs.declared.code.Standing.TheVariants as standing;
ghost use Rattle.reg_disorder.specs.Links.{is_linked, links_in};
ghost use Rattle.reg_disorder.specs.LinkHeirs.{IsHeir};
ghost use Rattle.reg_disorder.specs.Passing.{PassesOn};
ghost use Rattle.reg_disorder.specs.Standings.{IsStanding};
ghost use Rattle.reg_disorder.specs.Law.{SupersedesNone, IsHeirOfBoth, WasAwaited};

/// A command enters and retires entries, and then makes the links that pass on. Each supersession between entries that were
/// not retired holds for their heirs afterwards, unless the two have one heir; so the heir of an entry that was superseded is
/// superseded. No other supersession between entries that are not retired is there, apart from those whose entries came with
/// the command.
pub fn links_pass_on()
    ensures passes { (x m y : Content) (replica note noted : List ℕ) (bodies : List Body) (made ids : List Id) (links : List OneLink) (old newer a b : Id)
        → Does x replica note bodies m made → SupersedesNone bodies → PassesOn (links_in x.ops) m replica noted y links ids
        → is_linked x.ops old newer ≡ true → IsHeir m.ops old a → IsHeir m.ops newer b → a ≢ b → is_linked y.ops a b ≡ true }
    ensures superseded { (x m y : Content) (replica note noted : List ℕ) (bodies : List Body) (made ids : List Id) (links : List OneLink) (old newer a b : Id)
        → Does x replica note bodies m made → SupersedesNone bodies → PassesOn (links_in x.ops) m replica noted y links ids
        → is_linked x.ops old newer ≡ true → IsHeir m.ops old a → IsHeir m.ops newer b → a ≢ b → status y.ops a ≡ Some Superseded }
    ensures no_other { (x m y : Content) (replica note noted : List ℕ) (bodies : List Body) (made ids : List Id) (links : List OneLink) (a b : Id)
        → Does x replica note bodies m made → SupersedesNone bodies → PassesOn (links_in x.ops) m replica noted y links ids
        → is_linked y.ops a b ≡ true → IsHeirOfBoth x m a b ⊎ WasAwaited x a b }
    ensures same { (x m y : Content) (replica note noted : List ℕ) (bodies : List Body) (made ids : List Id) (links : List OneLink) (a b : Id)
        → Does x replica note bodies m made → SupersedesNone bodies → PassesOn (links_in x.ops) m replica noted y links ids
        → ((i : Id) → enters m.ops i ≡ enters x.ops i) → a ≢ b → (is_linked y.ops a b ≡ true) ↔ IsHeirOfBoth x m a b }
{}

/// The key of an entry that is the heir of a superseded one is superseded after such a command, unless the entry by which it was has the
/// same heir: so whoever settles or revises a superseded code does not bring it back.
pub fn heirs_stay_superseded()
    ensures { (x m y : Content) (replica note noted : List ℕ) (bodies : List Body) (made ids : List Id) (links : List OneLink) (old newer a b : Id)
        → Does x replica note bodies m made → SupersedesNone bodies → PassesOn (links_in x.ops) m replica noted y links ids
        → is_linked x.ops old newer ≡ true → IsHeir m.ops old a → IsHeir m.ops newer b → a ≢ b
        → (r : Row) (k : KeyBytes) → HasRow (rows y.ops) a r → HasKey r.definition k → IsStanding standing.Superseded (rows y.ops) k }
{}
