//! Values that are written.

ghost use Rattle.std.specs.Prelude.{◌≡◌, ◌++◌, OnOk};
ghost use Rattle.wkt_grammar.specs.Bare.{Bare};
ghost use Rattle.wkt_write.specs.Layout.{laid};

use crate::layout::Layout;
use std::alloc::AllocError;

/// A value that is written as a tree.
pub(crate) trait Written {
    ghost tree: { Self → Bare };

    /// Appends the text, or a part of it.
    fn push_to(&self, out: &mut Vec<u8>, layout: Layout) -> Result<(), AllocError>
        ensures { OnOk result (out.new.items ≡ out.old.items ++ laid layout (tree self.now)) };
}
