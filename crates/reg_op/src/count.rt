//! The count in the text of an id.

ghost use Rattle.std.specs.Prelude.{◌≡◌, ◌<◌, ◌^◌, ℕ, IfSome, IfNone, IsTrue, ◌↔◌, decimal};
ghost use Rattle.reg_op.specs.Text.{IsCount, IsNumeral};

use itoa::Buffer;

/// The count after a colon. The text is compared with the printed count, so each count has one spelling.
pub fn count_of(text: &[u8]) -> Option<u32>
    ensures found { IfSome result (λ n. IsCount text.now n) }
    ensures none { IfNone result ((n : ℕ) → ¬ (IsCount text.now n)) }
{
    let (colon, digits) = text.split_first()?;
    if *colon != b':' {
        return None;
    }
    numeral_of(digits)
}

// The number above 0 that these digits spell.
fn numeral_of(digits: &[u8]) -> Option<u32>
    ensures found { IfSome result (λ n. IsNumeral digits.now n) }
    ensures none { IfNone result ((n : ℕ) → ¬ (IsNumeral digits.now n)) }
{
    let Ok(number) = str::from_utf8(digits) else {
        return None;
    };
    let Some(count) = parsed(number) else {
        return None;
    };
    if count == 0 || !is_printed(count, digits) {
        return None;
    }
    Some(count)
}

fn parsed(number: &str) -> Option<u32>
    ensures { (n : ℕ) → n < 2 ^ 32 → number.now ≡ decimal n → result ≡ Some n }
{
    number.parse::<u32>().ok()
}

fn is_printed(count: u32, digits: &[u8]) -> bool
    ensures { IsTrue result ↔ (digits.now ≡ decimal count) }
{
    let mut buffer = Buffer::new();
    digits == buffer.format(count).as_bytes()
}
