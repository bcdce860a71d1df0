//! Texts.

ghost use Rattle.std.specs.Prelude.{◌≡◌, ◌↔◌, true, Some, IfOk, IfSome, IsTrue};
ghost use Rattle.std.specs.Str.{is_utf8};
ghost use Rattle.crs_number.specs.Canonical.{canonical};

use crate::copies::TryClone;
use crate::many::Many;
use crate::same::Same;
use crs_number::Decimal;
use std::alloc::{AllocError, Global};

/// Characters, as the bytes of their UTF-8.
#[derive(Drop)]
pub struct Text {
    bytes: Many<u8>,
    pub ghost utf8: { is_utf8 bytes ≡ true },
}

impl Text {
    ghost use Rattle.crs_part.specs.declared.text.Text.{Text};

    /// The bytes, which are UTF-8.
    pub fn as_bytes(&self) -> &[u8]
        ensures { result.now ≡ self.now.bytes }
    {
        self.bytes.as_slice()
    }

    /// The text of some bytes, if they are UTF-8.
    pub fn from_utf8(bytes: Many<u8>) -> Option<Text>
        ensures found { IfSome result (λ text. text.bytes ≡ bytes) }
        ensures only { (text : Text) → text.bytes ≡ bytes → result ≡ Some text }
    {
        if !is_text(bytes.as_slice()) {
            return None;
        }
        Some(Text { bytes })
    }

    /// A copy of some characters.
    pub fn copied(alloc: Global, text: &str) -> Result<Text, AllocError>
        ensures { IfOk result (λ copy. copy.bytes ≡ text.now) }
    {
        Ok(Text {
            bytes: Many::copied(alloc, text.as_bytes())?,
        })
    }

    /// The canonical text of a number.
    pub fn of_number(alloc: Global, number: Decimal) -> Result<Text, AllocError>
        ensures { IfOk result (λ text. text.bytes ≡ canonical number.coefficient number.exponent) }
    {
        let mut bytes = Vec::new(alloc);
        number.write_to(&mut bytes)?;
        Ok(Text {
            bytes: Many::from_vec(bytes),
        })
    }
}

fn is_text(bytes: &[u8]) -> bool
    ensures { result ≡ is_utf8 bytes.now }
{
    // Most texts are ASCII, which is tested faster.
    if bytes.is_ascii() {
        return true;
    }
    std::str::from_utf8(bytes).is_ok()
}

impl TryClone for Text {
    fn try_clone(&self, alloc: Global) -> Result<Text, AllocError> {
        Ok(Text {
            bytes: Many::copied(alloc, self.as_bytes())?,
        })
    }
}

impl Same for Text {
    fn same(&self, other: &Text) -> bool {
        self.as_bytes() == other.as_bytes()
    }
}

impl PartialEq for Text {
    ghost use Rattle.crs_part.specs.Equality.{equal, equal_is_partial_equivalence};
    ghost use Rattle.crs_part.specs.contracts.text.Text.{the_row};

    ghost eq = { equal the_row.coded };

    ghost laws = { equal_is_partial_equivalence the_row.coded };

    fn eq(&self, other: &Text) -> bool
        ensures value { result ≡ equal the_row.coded self.now other.now }
        ensures exact { IsTrue result ↔ (self.now ≡ other.now) }
    {
        self.same(other)
    }
}

impl Eq for Text {
    ghost use Rattle.crs_part.specs.Equality.{equal_is_equivalence};
    ghost use Rattle.crs_part.specs.contracts.text.Text.{the_row};

    ghost laws = { equal_is_equivalence the_row.coded };
}
