//! The classes of bytes in a condensed text, and runs of bytes.

ghost use Rattle.std.specs.Prelude.{◌≡◌, ◌≤◌, true, length, take};
ghost use Rattle.std.specs.List.{prefix_len, AllPass};
ghost use Rattle.wkt_tree.specs.Bytes.{is_blank};
ghost use Rattle.wkt_write.specs.Condensed.{is_delimiter, Shuts};
ghost use Rattle.wkt_write.specs.Pieces.{class_of, is_plain, is_inner};

const INNER: u8 = 0;

const DELIMITER: u8 = 1;

const BLANK: u8 = 2;

/// The class of each byte; 3 is a quotation mark.
static CLASSES: [u8; 256] = [
    0, 0, 0, 0, 0, 0, 0, 0, 0, 2, 2, 0, 0, 2, 0, 0, 0, 0, 0, 0, 0, 0, 0, 0, 0, 0, 0, 0, 0, 0, 0, 0,
    2, 0, 3, 0, 0, 0, 0, 0, 0, 0, 0, 0, 1, 0, 0, 0, 0, 0, 0, 0, 0, 0, 0, 0, 0, 0, 0, 0, 0, 0, 0, 0,
    0, 0, 0, 0, 0, 0, 0, 0, 0, 0, 0, 0, 0, 0, 0, 0, 0, 0, 0, 0, 0, 0, 0, 0, 0, 0, 0, 1, 0, 1, 0, 0,
    0, 0, 0, 0, 0, 0, 0, 0, 0, 0, 0, 0, 0, 0, 0, 0, 0, 0, 0, 0, 0, 0, 0, 0, 0, 0, 0, 0, 0, 0, 0, 0,
    0, 0, 0, 0, 0, 0, 0, 0, 0, 0, 0, 0, 0, 0, 0, 0, 0, 0, 0, 0, 0, 0, 0, 0, 0, 0, 0, 0, 0, 0, 0, 0,
    0, 0, 0, 0, 0, 0, 0, 0, 0, 0, 0, 0, 0, 0, 0, 0, 0, 0, 0, 0, 0, 0, 0, 0, 0, 0, 0, 0, 0, 0, 0, 0,
    0, 0, 0, 0, 0, 0, 0, 0, 0, 0, 0, 0, 0, 0, 0, 0, 0, 0, 0, 0, 0, 0, 0, 0, 0, 0, 0, 0, 0, 0, 0, 0,
    0, 0, 0, 0, 0, 0, 0, 0, 0, 0, 0, 0, 0, 0, 0, 0, 0, 0, 0, 0, 0, 0, 0, 0, 0, 0, 0, 0, 0, 0, 0, 0,
];

#[inline(always)]
fn class_of(b: u8) -> u8
    ensures { result ≡ class_of b }
{
    CLASSES[b as usize]
}

#[inline(always)]
pub(crate) fn is_delimiter(b: u8) -> bool
    ensures { result ≡ is_delimiter b }
{
    class_of(b) == DELIMITER
}

#[inline(always)]
fn is_blank(b: u8) -> bool
    ensures { result ≡ is_blank b }
{
    class_of(b) == BLANK
}

#[inline(always)]
fn is_inner(b: u8) -> bool
    ensures { result ≡ is_inner b }
{
    class_of(b) == INNER
}

#[inline(always)]
fn inner_len(bytes: &[u8]) -> usize
    ensures is { result ≡ prefix_len is_inner bytes.now }
    ensures within { result ≤ length bytes.now }
{
    bytes.iter().take_while(|b| is_inner(**b)).count()
}

#[inline(always)]
fn delimiter_len(bytes: &[u8]) -> usize
    ensures is { result ≡ prefix_len is_delimiter bytes.now }
    ensures within { result ≤ length bytes.now }
{
    bytes.iter().take_while(|b| is_delimiter(**b)).count()
}

/// The number of bytes in the word or numeral at the front and in the delimiters after it.
#[inline(always)]
pub(crate) fn plain_len(bytes: &[u8]) -> usize
    ensures plain { AllPass is_plain (take result bytes.now) }
    ensures within { result ≤ length bytes.now }
{
    let inner = inner_len(bytes);
    let (_, others) = bytes.split_at(inner);
    inner + delimiter_len(others)
}

#[inline(always)]
pub(crate) fn blank_len(bytes: &[u8]) -> usize
    ensures is { result ≡ prefix_len is_blank bytes.now }
    ensures within { result ≤ length bytes.now }
{
    bytes.iter().take_while(|b| is_blank(**b)).count()
}

/// Whether a delimiter or the end follows, after any blanks.
#[inline(always)]
pub(crate) fn shuts_after_blanks(bytes: &[u8]) -> bool
    ensures { result ≡ true → Shuts bytes.now }
{
    let (_, others) = bytes.split_at(blank_len(bytes));
    shuts(others)
}

/// Whether a delimiter or the end follows.
#[inline(always)]
pub(crate) fn shuts(bytes: &[u8]) -> bool
    ensures { result ≡ true → Shuts bytes.now }
{
    match bytes.first() {
        Some(b) => is_delimiter(*b),
        None => true,
    }
}
