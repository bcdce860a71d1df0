//! Texts of which at most 200 characters are shown.

ghost use Rattle.std.specs.Prelude.{◌≡◌, ◌++◌, OnOk};
ghost use Rattle.html_page.specs.Short.{short};

use crate::marks::{Feeds, push_marked};
use std::alloc::AllocError;
use text_hidden::{push_ellipsis, shortened};

/// Appends the first 200 characters of a text, with marks, and escaped; and `…` if there are more.
pub fn push_short(page: &mut Vec<u8>, text: &[u8]) -> Result<(), AllocError>
    ensures { OnOk result (page.new.items ≡ page.old.items ++ short text.now) }
{
    push_marked(page, Feeds::Marked, shortened(text))?;
    push_ellipsis(page, text)?;
    Ok(())
}
