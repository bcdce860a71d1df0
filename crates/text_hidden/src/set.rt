//! The characters that are hidden.

ghost use Rattle.std.specs.Prelude.{◌≡◌};
ghost use Rattle.text_hidden.specs.Set.{is_within, is_control, has_no_width, ends_line, turns, is_hidden};

fn is_within(first: u32, last: u32, code: u32) -> bool
    ensures { result ≡ is_within first last code }
{
    first <= code && code <= last
}

fn is_control(code: u32) -> bool
    ensures { result ≡ is_control code }
{
    code <= 0x1f || is_within(0x7f, 0x9f, code)
}

fn has_no_width(code: u32) -> bool
    ensures { result ≡ has_no_width code }
{
    is_within(0x200b, 0x200d, code)
}

fn ends_line(code: u32) -> bool
    ensures { result ≡ ends_line code }
{
    is_within(0x2028, 0x2029, code)
}

fn turns(code: u32) -> bool
    ensures { result ≡ turns code }
{
    is_within(0x200e, 0x200f, code)
        || is_within(0x202a, 0x202e, code)
        || is_within(0x2066, 0x2069, code)
}

/// Whether the character with this code is hidden.
pub fn is_hidden_code(code: u32) -> bool
    ensures { result ≡ is_hidden code }
{
    is_control(code) || has_no_width(code) || ends_line(code) || turns(code)
}

/// Whether the character is not seen, or acts on a terminal or on other characters: control characters (the category Cc of Unicode
/// 14.0), separators of lines and paragraphs (Zl and Zp), and, of Cf, U+200B to U+200F, U+202A to U+202E and U+2066 to U+2069.
pub fn is_hidden(char: char) -> bool
    ensures { result ≡ is_hidden char }
{
    is_hidden_code(u32::from(char))
}
