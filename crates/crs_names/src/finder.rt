//! A visitor that keeps what the first odd node is.

ghost use Rattle.std.specs.Prelude.{◌≡◌};
ghost use Rattle.std.specs.Option.{option_map, option_or};
ghost use Rattle.crs_exact.specs.Said.{sentence};
ghost use Rattle.crs_names.specs.Odd.{first_odd};

use crate::node::Node;
use crate::nodes::Visitor;
use crate::odd::{Seek, odd};
use crs_exact::Finding;

/// What is looked for, and what the first odd node is.
#[derive(Clone, Copy)]
pub(crate) struct Finder<'a> {
    pub(crate) seek: Seek,
    pub(crate) found: Option<Finding<'a>>,
}

impl<'a> Visitor<'a> for Finder<'a> {
    ghost has = { λ first now all rest. (now.seek ≡ first.seek) × (option_or (option_map sentence now.found) (first_odd first.seek rest) ≡ first_odd first.seek all) };

    fn meet(&mut self, node: Node<'a>) {
        if self.found.is_none() {
            self.found = odd(self.seek, node);
        }
    }
}
