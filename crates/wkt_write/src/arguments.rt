//! A node's brackets, and its arguments after the first.

ghost use Rattle.std.specs.Prelude.{◌≡◌, ◌++◌, ◌∷◌, [], map, OnOk, IfOk};
ghost use Rattle.wkt_grammar.specs.Words.{spelling};
ghost use Rattle.wkt_grammar.specs.Runs.{listed};
ghost use Rattle.wkt_grammar.specs.Trees.{one, maybe};
ghost use Rattle.wkt_write.specs.Layout.{before, inner, behind};

use crate::layout::Layout;
use crate::written::Written;
use crs_part::{Many, NonEmpty};
use std::alloc::AllocError;
use wkt_grammar::Keyword;

/// Opens a node, and returns the layout of its arguments.
pub(crate) fn push_open(
    out: &mut Vec<u8>,
    layout: Layout,
    keyword: Keyword,
) -> Result<Layout, AllocError>
    ensures text { OnOk result (out.new.items ≡ out.old.items ++ (before layout ++ (spelling keyword ++ 91 ∷ []))) }
    ensures inside { IfOk result (λ inside. inside ≡ inner layout) }
{
    let inside = layout.inner()?;
    layout.push_before(out)?;
    out.extend_from_slice(keyword.spelling())?;
    out.push(b'[')?;
    Ok(inside)
}

pub(crate) fn push_close(out: &mut Vec<u8>) -> Result<(), AllocError>
    ensures { OnOk result (out.new.items ≡ out.old.items ++ 93 ∷ []) }
{
    out.push(b']')?;
    Ok(())
}

pub(crate) fn push_comma(out: &mut Vec<u8>) -> Result<(), AllocError>
    ensures { OnOk result (out.new.items ≡ out.old.items ++ 44 ∷ []) }
{
    out.push(b',')?;
    Ok(())
}

pub(crate) fn push_one<T: Written>(
    out: &mut Vec<u8>,
    layout: Layout,
    item: &T,
) -> Result<(), AllocError>
    ensures { OnOk result (out.new.items ≡ out.old.items ++ behind layout (one (T.tree item.now))) }
{
    push_comma(out)?;
    item.push_to(out, layout)
}

pub(crate) fn push_maybe<T: Written>(
    out: &mut Vec<u8>,
    layout: Layout,
    item: &Option<T>,
) -> Result<(), AllocError>
    ensures { OnOk result (out.new.items ≡ out.old.items ++ behind layout (maybe T.tree item.now)) }
{
    match item {
        Some(item) => push_one(out, layout, item),
        None => Ok(()),
    }
}

pub(crate) fn push_each<T: Written>(
    out: &mut Vec<u8>,
    layout: Layout,
    items: &Many<T>,
) -> Result<(), AllocError>
    ensures { OnOk result (out.new.items ≡ out.old.items ++ behind layout (map T.tree items.now)) }
{
    for item in items.as_slice() {
        push_one(out, layout, item)?;
    }
    Ok(())
}

pub(crate) fn push_some<T: Written>(
    out: &mut Vec<u8>,
    layout: Layout,
    items: &NonEmpty<T>,
) -> Result<(), AllocError>
    ensures { OnOk result (out.new.items ≡ out.old.items ++ behind layout (map T.tree (listed items.now))) }
{
    push_one(out, layout, &items.first)?;
    push_each(out, layout, &items.others)
}
