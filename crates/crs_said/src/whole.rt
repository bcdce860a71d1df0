//! What a whole system says.

ghost use Rattle.std.specs.Prelude.{◌≡◌, ◌++◌, IfOk, OnOk};
ghost use Rattle.crs_said.specs.Content.{without_names, single_kind, kind_said, kind_and_name};

use crate::fields::{push_field, push_name};
use crate::identified::CONTENT;
use crate::says::Says;
use crate::systems::single_word;
use crs_part::{CrsParts, Single};
use std::alloc::{AllocError, Global};

/// Most systems say fewer bytes than these.
const WHOLE: usize = 512;

/// All that a system says, but for names of systems, conversions, units and axes, identifiers, usages, anchors, remarks and the
/// order of axes. Other names are without letter case, and with underscores as blanks.
pub fn without_names(alloc: Global, crs: &CrsParts) -> Result<Vec<u8>, AllocError>
    ensures { IfOk result (λ text. text.items ≡ without_names crs.now) }
{
    let mut text = Vec::with_capacity(alloc, WHOLE)?;
    match crs {
        CrsParts::Single(crs) => crs.say(false, &mut text)?,
        CrsParts::Compound(crs) => crs.get().say(false, &mut text)?,
    }
    text.shrink_to_fit();
    Ok(text)
}

/// The name of a system without letter case, its kind, the kind of its coordinate system, and how many axes it has.
pub fn kind_and_name(alloc: Global, crs: &CrsParts) -> Result<Vec<u8>, AllocError>
    ensures { IfOk result (λ text. text.items ≡ kind_and_name crs.now) }
{
    let mut text = Vec::with_capacity(alloc, CONTENT)?;
    push_name(false, crs.name(), &mut text)?;
    push_kind(&mut text, crs)?;
    Ok(text)
}

fn push_kind(out: &mut Vec<u8>, crs: &CrsParts) -> Result<(), AllocError>
    ensures { OnOk result (out.new.items ≡ out.old.items ++ kind_said crs.now) }
{
    match crs {
        CrsParts::Single(crs) => push_single_kind(out, crs),
        CrsParts::Compound(_) => push_field(out, b"compound"),
    }
}

fn push_single_kind(out: &mut Vec<u8>, crs: &Single) -> Result<(), AllocError>
    ensures { OnOk result (out.new.items ≡ out.old.items ++ single_kind crs.now) }
{
    push_field(out, single_word(crs))?;
    crs.system().say(false, out)
}
