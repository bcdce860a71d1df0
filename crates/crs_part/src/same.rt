//! Equality of values.

ghost use Rattle.std.specs.Prelude.{◌≡◌, true};

use crs_number::Decimal;

/// A value with equality, as contracts see it.
pub trait Same {
    fn same(&self, other: &Self) -> bool
        ensures yes { result ≡ true → self.now ≡ other.now }
        ensures no { self.now ≡ other.now → result ≡ true };
}

impl<T: Same> Same for Option<T> {
    fn same(&self, other: &Option<T>) -> bool {
        match (self, other) {
            (Some(a), Some(b)) => a.same(b),
            (None, None) => true,
            (_, _) => false,
        }
    }
}

impl Same for Decimal {
    fn same(&self, other: &Decimal) -> bool {
        self.coefficient() == other.coefficient() && self.exponent() == other.exponent()
    }
}
