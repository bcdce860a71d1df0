//! The statements of a register about a text.

use reg_report::KeyText;

/// A statement of a register about a text with this key: that it is valid, or that it is superseded, with the key of a superseding
/// entry. Statements are ordered by key, then by text, and then by what they say: that a text is superseded comes first.
#[derive(Clone, Copy, PartialEq, Eq, PartialOrd, Ord)]
pub struct Saying<'a> {
    pub key: KeyText<'a>,
    pub text: &'a [u8],
    pub valid: bool,
    pub by: Option<KeyText<'a>>,
}
