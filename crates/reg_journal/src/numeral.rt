//! A line with a number.

ghost use Rattle.std.specs.Prelude.{◌≡◌, ◌<◌, ◌^◌, ◌++◌, ℕ, List, IfSome, IfNone, IsTrue, ◌↔◌, decimal};
ghost use Rattle.std.specs.Char.{is_ascii_digit};
ghost use Rattle.std.specs.List.{prefix_len};
ghost use Rattle.reg_journal.specs.Text.{line_text};

use itoa::Buffer;

/// The number of the first line, and what follows. The line is compared with the printed number, so each has one spelling.
pub fn line_of(text: &[u8]) -> Option<(u32, &[u8])>
    ensures found { IfSome result (λ p. (text.now ≡ line_text p.0 ++ p.1.now) × (p.0 < 2 ^ 32)) }
    ensures none { IfNone result ((n : ℕ) (rest : List ℕ) → n < 2 ^ 32 → ¬ (text.now ≡ line_text n ++ rest)) }
{
    let len = digits_in(text);
    let (digits, rest) = text.split_at(len);
    let Some((newline, rest)) = rest.split_first() else {
        return None;
    };
    if *newline != b'\n' {
        return None;
    }
    let Some(count) = numeral_of(digits) else {
        return None;
    };
    Some((count, rest))
}

// How many digits the text begins with.
fn digits_in(text: &[u8]) -> usize
    ensures { result ≡ prefix_len is_ascii_digit text.now }
{
    text.iter().take_while(|b| b.is_ascii_digit()).count()
}

// The number that these digits spell.
fn numeral_of(digits: &[u8]) -> Option<u32>
    ensures found { IfSome result (λ n. (digits.now ≡ decimal n) × (n < 2 ^ 32)) }
    ensures none { IfNone result ((n : ℕ) → n < 2 ^ 32 → ¬ (digits.now ≡ decimal n)) }
{
    let Ok(number) = str::from_utf8(digits) else {
        return None;
    };
    let Some(count) = parsed(number) else {
        return None;
    };
    if !is_printed(count, digits) {
        return None;
    }
    Some(count)
}

fn parsed(number: &str) -> Option<u32>
    ensures { (n : ℕ) → n < 2 ^ 32 → number.now ≡ decimal n → result ≡ Some n }
{
    number.parse::<u32>().ok()
}

fn is_printed(count: u32, digits: &[u8]) -> bool
    ensures { IsTrue result ↔ (digits.now ≡ decimal count) }
{
    let mut buffer = Buffer::new();
    digits == buffer.format(count).as_bytes()
}
