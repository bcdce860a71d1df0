//! The central meridian that a name says.

ghost use Rattle.std.specs.Prelude.{◌≡◌, ◌≤◌, ◌<◌, ◌^◌, ◌*◌};
ghost use Rattle.crs_meridians.specs.Said.{is_digit, side, end_of, after_point, ended, whole_part, meridian_behind, meridian_said};

use crs_exact::{after, begins};

/// A meridian, in units of 10^-6 degrees east or west of Greenwich.
#[derive(Clone, Copy)]
pub(crate) struct SaidMeridian {
    pub(crate) is_west: bool,
    pub(crate) micro: u64,
}

/// The central meridian at the end of a name, such as `CM 45E` or `CM 7.5W`.
pub(crate) fn meridian_said(name: &[u8]) -> Option<SaidMeridian>
    ensures { result ≡ meridian_said name.now }
{
    let mut rest = name;
    while let Some((_, others)) = rest.split_first() {
        if begins(rest, b"CM ") {
            if let Some(said) = meridian_behind(after(rest, 3)) {
                return Some(said);
            }
        }
        rest = others;
    }
    None
}

fn meridian_behind(text: &[u8]) -> Option<SaidMeridian>
    ensures { result ≡ meridian_behind text.now }
{
    match text.split_first() {
        Some((b, rest)) => {
            if is_digit(*b) {
                return whole_part(u64::from(*b - 48), rest);
            }
            None
        }
        None => None,
    }
}

// The rest of a number below 1000 that begins so, and the side.
fn whole_part(first: u64, text: &[u8]) -> Option<SaidMeridian>
    requires { first ≤ 9 }
    ensures { result ≡ whole_part first text.now }
{
    let mut number = first;
    let mut rest = text;
    while let Some((b, others)) = rest.split_first() {
        if !is_digit(*b) {
            return ended(number, *b, others);
        }
        if number > 99 {
            return None;
        }
        number = number * 10 + u64::from(*b - 48);
        rest = others;
    }
    None
}

// What ends the number: a point and a decimal, or the side.
fn ended(number: u64, byte: u8, rest: &[u8]) -> Option<SaidMeridian>
    requires { number < 10 ^ 3 }
    ensures { result ≡ ended number byte rest.now }
{
    if byte == b'.' {
        return after_point(number, rest);
    }
    side(number * 1_000_000, byte, rest)
}

// A decimal, and the side.
fn after_point(whole: u64, text: &[u8]) -> Option<SaidMeridian>
    requires { whole < 10 ^ 3 }
    ensures { result ≡ after_point (whole * 1000000) text.now }
{
    match text.split_first() {
        Some((b, rest)) => {
            if is_digit(*b) {
                return end_of(whole * 1_000_000 + u64::from(*b - 48) * 100_000, rest);
            }
            None
        }
        None => None,
    }
}

// The side, if there is one.
fn end_of(micro: u64, text: &[u8]) -> Option<SaidMeridian>
    ensures { result ≡ end_of micro text.now }
{
    match text.split_first() {
        Some((b, rest)) => side(micro, *b, rest),
        None => None,
    }
}

// E or W, and the end of the name.
fn side(micro: u64, byte: u8, rest: &[u8]) -> Option<SaidMeridian>
    ensures { result ≡ side micro byte rest.now }
{
    if !rest.is_empty() {
        return None;
    }
    if byte == b'E' || byte == b'e' {
        return Some(SaidMeridian {
            is_west: false,
            micro,
        });
    }
    if byte == b'W' || byte == b'w' {
        return Some(SaidMeridian {
            is_west: true,
            micro,
        });
    }
    None
}

fn is_digit(byte: u8) -> bool
    ensures { result ≡ is_digit byte }
{
    48 <= byte && byte <= 57
}
