//! Canonical texts.

ghost use Rattle.std.specs.Prelude.{◌≡◌, true, IfSome};
ghost use Rattle.wkt_canonical.specs.Reads.{IsCanonical, IsCanonicalOf};

use crate::crs::{SeenSystem, whole};

/// The name and the first identifier of a reference system that meets all conditions, if the text is recognized as its
/// canonical text. Nothing is allocated. Some canonical texts are not recognized: those with marks inside a quoted
/// text, with units for only some axes, or with long numbers.
pub fn recognize(bytes: &[u8]) -> Option<SeenSystem<'_>>
    ensures { IfSome result (λ seen. IsCanonicalOf seen bytes.now) }
{
    let (seen, rest) = whole(bytes)?;
    if !rest.is_empty() {
        return None;
    }
    Some(seen)
}

/// Whether the text is recognized as the canonical text of a reference system that meets all conditions.
pub fn is_canonical(bytes: &[u8]) -> bool
    ensures { result ≡ true → IsCanonical bytes.now }
{
    recognize(bytes).is_some()
}
