//! The law of codes. The function does nothing: its contract is the law.

ghost use Rattle.std.specs.Prelude.{◌≡◌, ◌≢◌, List};
ghost use Rattle.reg_op.specs.Rows.{Row};
ghost use Rattle.reg_report.specs.Conflicts.{KeyBytes};
ghost use Rattle.reg_disorder.specs.declared.code.Standing.{Standing};
ghost use Rattle.reg_disorder.specs.declared.code.Standing.TheVariants.{Absent, Superseded};
ghost use Rattle.reg_disorder.specs.Standings.{IsStanding};
ghost use Rattle.reg_news.specs.Codes.{IsSaidByOne, IsToldOnce};

/// A code that has entries before and after, and stands otherwise, or is superseded by others, is in exactly one of three lists:
/// those in use again, those superseded anew, and those that have no entry any more.
pub fn a_code_that_stands_otherwise_is_told_once()
    ensures otherwise { (rs ss : List Row) (k : KeyBytes) (s t : Standing) → IsStanding s rs k → IsStanding t ss k → s ≢ Absent → t ≢ Absent → s ≢ t → IsToldOnce rs ss k }
    ensures others { (rs ss : List Row) (k : KeyBytes) → IsStanding Superseded rs k → IsStanding Superseded ss k → IsSaidByOne rs ss k → IsToldOnce rs ss k }
    ensures alike { (rs ss : List Row) (k : KeyBytes) (s : Standing) → IsStanding s rs k → IsStanding s ss k → IsToldOnce rs ss k → s ≡ Superseded }
{}
