//! How much a register has.

ghost use Rattle.std.specs.Prelude.{◌≡◌};
ghost use Rattle.std.specs.List.{count_by};
ghost use Rattle.reg_op.specs.Status.{status};
ghost use Rattle.reg_page.specs.declared.described.Described.{Described as OneDescribed};
ghost use Rattle.reg_page.specs.Page.{standing_of, is_valid, is_superseded, is_retired};

use crate::described::Described;
use crate::entries::standing_of;
use html_page::Standing;
use reg_state::Register;

fn is_valid(register: &Register, one: &Described) -> bool
    ensures { result ≡ is_valid (standing_of (status register.now.ops one.now.id)) }
{
    standing_of(register, one.id) == Standing::Valid
}

fn is_superseded(register: &Register, one: &Described) -> bool
    ensures { result ≡ is_superseded (standing_of (status register.now.ops one.now.id)) }
{
    standing_of(register, one.id) == Standing::Superseded
}

/// Whether an entry is retired.
pub fn is_retired(register: &Register, one: &Described) -> bool
    ensures { result ≡ is_retired (standing_of (status register.now.ops one.now.id)) }
{
    standing_of(register, one.id) == Standing::Retired
}

/// How many entries are valid.
pub fn count_valid(register: &Register, described: &[Described]) -> usize
    ensures { result ≡ count_by (λ (t : OneDescribed). is_valid (standing_of (status register.now.ops t.id))) described.now }
{
    described
        .iter()
        .filter(|one| is_valid(register, *one))
        .count()
}

/// How many entries are superseded.
pub fn count_superseded(register: &Register, described: &[Described]) -> usize
    ensures { result ≡ count_by (λ (t : OneDescribed). is_superseded (standing_of (status register.now.ops t.id))) described.now }
{
    described
        .iter()
        .filter(|one| is_superseded(register, *one))
        .count()
}

/// How many entries are retired.
pub fn count_retired(register: &Register, described: &[Described]) -> usize
    ensures { result ≡ count_by (λ (t : OneDescribed). is_retired (standing_of (status register.now.ops t.id))) described.now }
{
    described
        .iter()
        .filter(|one| is_retired(register, *one))
        .count()
}
