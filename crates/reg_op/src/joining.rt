//! Values with a join: the laws, and the join of many, proved once from the laws.

ghost use Rattle.std.specs.Prelude.{◌≡◌, ◌↔◌, List, [], ◌∷◌, Ok, Err, Result, IfOk};
ghost use Rattle.reg_op.specs.Joining.{JoinLaws, joined_both, all_joined, AllAgree, SameMembers};

use std::alloc::{AllocError, Global};
use std::fmt;

/// Why a join is refused.
#[derive(Clone, Copy, Debug, PartialEq, Eq, Drop)]
pub enum JoinFault<C> {
    /// Two values do not agree; the place.
    Clash(C),
    /// An allocation failed.
    Memory,
}

impl<C> JoinFault<C> {
    ghost use Rattle.reg_op.specs.JoinNames.{name_of};

    /// The name that is printed.
    pub fn name(&self) -> &'static str
        ensures { result.now ≡ name_of self.now }
    {
        match self {
            JoinFault::Clash(_) => "Clash",
            JoinFault::Memory => "Memory",
        }
    }
}

impl<C: fmt::Display> fmt::Display for JoinFault<C> {
    fn fmt<W: fmt::Write>(&self, f: &mut fmt::Formatter<W>) -> fmt::Result {
        match self {
            JoinFault::Clash(clash) => write!(f, "Clash {clash}"),
            JoinFault::Memory => f.write_str("out of memory"),
        }
    }
}

/// A type whose values can be joined, if they agree.
pub trait Join: Sized + Drop {
    /// The place that a refusal names.
    type Clash: Drop;

    ghost nothing: { Self };

    ghost joined: { Self → Self → Result Self Self.Clash };

    /// The join of two values that agree.
    ghost merged: { Self → Self → Self };

    /// They can be joined.
    ghost agree: { Self → Self → Type 0 };

    /// The set of values.
    ghost is_value: { Self → Type 0 };

    fn empty(alloc: Global) -> Self
        ensures { result ≡ nothing };

    /// A clash is found before anything is allocated.
    fn join(&self, alloc: Global, other: &Self) -> Result<Self, JoinFault<Self::Clash>>
        ensures ok { IfOk result (λ r. joined self.now other.now ≡ Ok r) }
        ensures clash { (c : Self.Clash) → (result ≡ Err (JoinFault.Clash c)) ↔ (joined self.now other.now ≡ Err c) }
        ensures values { is_value self.now × is_value other.now };

    /// The laws that each `impl` proves.
    ghost laws: { JoinLaws nothing joined merged agree is_value };
}

/// Joins all values from left to right, starting with nothing, without a copy of the first if there are two or more.
pub fn join_all<T: Join>(alloc: Global, xs: &[T]) -> Result<T, JoinFault<T::Clash>>
    ensures ok { IfOk result (λ r. all_joined T.joined (Ok T.nothing) xs.now ≡ Ok r) }
    ensures clash { (c : T.Clash) → result ≡ Err (JoinFault.Clash c) → all_joined T.joined (Ok T.nothing) xs.now ≡ Err c }
{
    let Some((first, rest)) = xs.split_first() else {
        return Ok(T::empty(alloc));
    };
    let Some((second, others)) = rest.split_first() else {
        return T::empty(alloc).join(alloc, first);
    };
    let both = first.join(alloc, second)?;
    join_more(alloc, both, others)
}

// Joins more, from the left.
fn join_more<T: Join>(alloc: Global, first: T, xs: &[T]) -> Result<T, JoinFault<T::Clash>>
    ensures ok { IfOk result (λ r. all_joined T.joined (Ok first) xs.now ≡ Ok r) }
    ensures clash { (c : T.Clash) → result ≡ Err (JoinFault.Clash c) → all_joined T.joined (Ok first) xs.now ≡ Err c }
{
    let mut all = first;
    for x in xs {
        all = all.join(alloc, x)?;
    }
    Ok(all)
}

/// If the values of a list agree pairwise, they have a join, which depends neither on their order nor on repeats. The
/// join of one value is that value.
pub fn order_is_free<T: Join>()
    ensures agreement { (xs : List T) → AllAgree T.agree xs → (r : T) × (all_joined T.joined (Ok T.nothing) xs ≡ Ok r) }
    ensures order { (xs ys : List T) → AllAgree T.agree xs → SameMembers xs ys → all_joined T.joined (Ok T.nothing) xs ≡ all_joined T.joined (Ok T.nothing) ys }
    ensures one { (x : T) → T.is_value x → all_joined T.joined (Ok T.nothing) (x ∷ []) ≡ Ok x }
{}

/// The join of three values that agree pairwise does not depend on which two are joined first.
pub fn join_is_associative<T: Join>()
    ensures associative { (x y z : T) → T.agree x y → T.agree x z → T.agree y z → joined_both T.joined (T.joined x y) (Ok z) ≡ joined_both T.joined (Ok x) (T.joined y z) }
    ensures joined { (x y z : T) → T.agree x y → T.agree x z → T.agree y z → joined_both T.joined (T.joined x y) (Ok z) ≡ Ok (T.merged (T.merged x y) z) }
{}
