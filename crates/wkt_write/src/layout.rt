//! The layout of nodes on lines.

ghost use Rattle.std.specs.Prelude.{◌≡◌, ◌*◌, ◌++◌, ◌∷◌, [], replicate, OnOk, IfOk};
ghost use Rattle.wkt_write.specs.Layout.{before, inner};

use std::alloc::AllocError;

/// The layout of a node: all nodes on one line, or each node except the root on a line of its own.
#[derive(Clone, Copy)]
pub(crate) enum Layout {
    OneLine,
    /// The root.
    Root,
    /// A node inside this many others.
    Inside(usize),
}

impl Layout {
    /// The layout of a node's arguments.
    pub(crate) fn inner(self) -> Result<Layout, AllocError>
        ensures { IfOk result (λ layout. layout ≡ inner self) }
    {
        match self {
            Layout::OneLine => Ok(Layout::OneLine),
            Layout::Root => Ok(Layout::Inside(1)),
            Layout::Inside(depth) => {
                let Some(deeper) = depth.checked_add(1) else {
                    // No margin is that wide.
                    return Err(AllocError);
                };
                Ok(Layout::Inside(deeper))
            }
        }
    }

    /// Appends the newline and margin before a node's keyword.
    pub(crate) fn push_before(self, out: &mut Vec<u8>) -> Result<(), AllocError>
        ensures { OnOk result (out.new.items ≡ out.old.items ++ before self) }
    {
        match self {
            Layout::OneLine => Ok(()),
            Layout::Root => Ok(()),
            Layout::Inside(depth) => push_new_line(out, depth),
        }
    }
}

fn push_new_line(out: &mut Vec<u8>, depth: usize) -> Result<(), AllocError>
    ensures { OnOk result (out.new.items ≡ out.old.items ++ (10 ∷ replicate (4 * depth) 32)) }
{
    out.push(b'\n')?;
    for _ in 0..depth {
        out.extend_from_slice(b"    ")?;
    }
    Ok(())
}
