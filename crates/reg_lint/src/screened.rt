//! Reference systems that were looked at once.

ghost use Rattle.std.specs.Prelude.{◌≡◌, true, false};
ghost use Rattle.std.specs.List.{Contains};
ghost use Rattle.crs_sense.specs.declared.rule.Rule.{Rule as OneRule};
ghost use Rattle.crs_sense.specs.Rules.{breaks};
ghost use Rattle.reg_lint.specs.Subjects.{Subject, IsKept};

use crate::kept::KeptSubject;
use crs_sense::Rule;

/// A reference system. If it was looked at, it breaks no rule about one alone but these.
#[derive(Drop)]
pub(crate) struct Screened<'a> {
    pub(crate) kept: &'a KeptSubject,
    pub(crate) looked: bool,
    pub(crate) broken: Vec<Rule>,
    pub(crate) ghost sound: { looked ≡ true → (s : Subject) → IsKept kept.now s → (rule : OneRule) → ¬ (Contains broken.items rule) → breaks rule s.crs.parts ≡ false },
}
