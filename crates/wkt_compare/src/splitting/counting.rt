//! The length of a text, found by counting open delimiters.

ghost use Rattle.std.specs.Prelude.{◌≡◌, ◌+◌, ◌<◌, ◌^◌, false};
ghost use Rattle.wkt_compare.specs.Texts.{IsFirstText};
ghost use Rattle.wkt_compare.specs.Counting.{counted, text_len};

/// The number of open delimiters after a byte outside quotation marks, or none if that byte ends the text.
#[inline(always)]
fn counted(count: usize, b: u8) -> Option<usize>
    requires { count + 1 < 2 ^ 64 }
    ensures { result ≡ counted count b }
{
    match b {
        b'[' | b'(' => Some(count + 1),
        b']' | b')' => { if count <= 1 { None } else { Some(count - 1) } }
        _ => Some(count),
    }
}

fn closing_len(bytes: &[u8]) -> usize
    ensures { result ≡ text_len 0 false bytes.now }
{
    let mut count = 0;
    let mut quoted = false;
    for (at, b) in bytes.iter().enumerate() {
        if *b == b'"' {
            quoted = !quoted;
            continue;
        }
        if quoted {
            continue;
        }
        let Some(next) = counted(count, *b) else {
            return at + 1;
        };
        count = next;
    }
    bytes.len()
}

/// The length of the first text.
pub fn text_len(bytes: &[u8]) -> usize
    ensures { IsFirstText bytes.now result }
{
    closing_len(bytes)
}
