//! The zone that a name says.

ghost use Rattle.std.specs.Prelude.{◌≡◌, ◌+◌, ◌*◌, ◌-◌};
ghost use Rattle.std.specs.Option.{option_map};
ghost use Rattle.crs_meridians.specs.ZoneName.{behind, is_digit, is_letter, goes_on, sideless, utm_sided, ended, finished, numbered, numbered_behind, at_start, utm_said, after_kr, kr_behind, width_said, zone_said};

use crate::grid::{Grid, Zone, zone_of};
use crs_exact::{after, begins};

/// The zone that a name says: of UTM, of zones of 3 degrees, or of 6.
pub(crate) fn zone_said(name: &[u8]) -> Option<Zone>
    ensures { result ≡ zone_said name.now }
{
    if let Some(zone) = width_said(name) {
        return Some(zone);
    }
    if let Some(zone) = kr_behind(Grid::Six, behind(name, b"/ Gauss-Kr")) {
        return Some(zone);
    }
    kr_behind(Grid::Six, at_start(name, b"Gauss-Kr"))
}

/// The zone that a name says, if it is of UTM or of zones of 3 degrees.
pub(crate) fn width_said(name: &[u8]) -> Option<Zone>
    ensures { result ≡ width_said name.now }
{
    if let Some(zone) = utm_said(name) {
        return Some(zone);
    }
    kr_behind(Grid::Three, behind(name, b"3-degree Gauss-Kr"))
}

fn utm_said(name: &[u8]) -> Option<Zone>
    ensures { result ≡ utm_said name.now }
{
    if let Some(zone) = numbered_behind(Grid::Utm, behind(name, b"UTM zone ")) {
        return Some(zone);
    }
    if let Some(zone) = numbered_behind(Grid::Utm, behind(name, b"UTM-zone ")) {
        return Some(zone);
    }
    numbered_behind(Grid::Utm, behind(name, b"UTM "))
}

fn kr_behind(grid: Grid, rest: Option<&[u8]>) -> Option<Zone>
    ensures { result ≡ kr_behind grid (option_map (λ rest. rest.now) rest.entry) }
{
    match rest {
        Some(rest) => after_kr(grid, rest),
        None => None,
    }
}

// The rest of Kruger, Krueger or Krüger, and the zone.
fn after_kr(grid: Grid, rest: &[u8]) -> Option<Zone>
    ensures { result ≡ after_kr grid rest.now }
{
    if let Some(zone) = numbered_behind(grid, at_start(rest, b"uger zone ")) {
        return Some(zone);
    }
    if let Some(zone) = numbered_behind(grid, at_start(rest, b"ueger zone ")) {
        return Some(zone);
    }
    numbered_behind(grid, at_start(rest, b"\xc3\xbcger zone "))
}

fn numbered_behind(grid: Grid, rest: Option<&[u8]>) -> Option<Zone>
    ensures { result ≡ numbered_behind grid (option_map (λ rest. rest.now) rest.entry) }
{
    match rest {
        Some(rest) => numbered(grid, rest),
        None => None,
    }
}

// What follows the first place of the part.
fn behind<'a>(name: &'a [u8], part: &[u8]) -> Option<&'a [u8]>
    ensures { option_map (λ rest. rest.now) result ≡ behind part.now name.now }
{
    let mut rest = name;
    while let Some((_, others)) = rest.split_first() {
        if begins(rest, part) {
            return Some(after(rest, part.len()));
        }
        rest = others;
    }
    None
}

fn at_start<'a>(name: &'a [u8], part: &[u8]) -> Option<&'a [u8]>
    ensures { option_map (λ rest. rest.now) result ≡ at_start part.now name.now }
{
    if begins(name, part) {
        return Some(after(name, part.len()));
    }
    None
}

// A number of one digit or two, and what follows it.
fn numbered(grid: Grid, text: &[u8]) -> Option<Zone>
    ensures { result ≡ numbered grid text.now }
{
    let Some((a, rest)) = text.split_first() else {
        return None;
    };
    if !is_digit(*a) {
        return None;
    }
    let Some((b, others)) = rest.split_first() else {
        return finished(grid, u32::from(*a - 48), &[]);
    };
    if is_digit(*b) {
        return finished(grid, u32::from(*a - 48) * 10 + u32::from(*b - 48), others);
    }
    finished(grid, u32::from(*a - 48), rest)
}

fn finished(grid: Grid, number: u32, rest: &[u8]) -> Option<Zone>
    ensures { result ≡ finished grid number rest.now }
{
    match grid {
        Grid::Utm => utm_sided(number, rest),
        Grid::UtmNorth => utm_sided(number, rest),
        Grid::UtmSouth => utm_sided(number, rest),
        Grid::Three => ended(Grid::Three, 99, number, rest),
        Grid::Six => ended(Grid::Six, 60, number, rest),
    }
}

fn ended(grid: Grid, most: u32, number: u32, rest: &[u8]) -> Option<Zone>
    ensures { result ≡ ended grid most number rest.now }
{
    if goes_on(rest) {
        return None;
    }
    zone_of(grid, most, number)
}

// N, S, or neither, and the end of the word.
fn utm_sided(number: u32, rest: &[u8]) -> Option<Zone>
    ensures { result ≡ utm_sided number rest.now }
{
    let Some((b, others)) = rest.split_first() else {
        return zone_of(Grid::Utm, 60, number);
    };
    if goes_on(others) {
        return sideless(*b, number);
    }
    if *b == b'N' || *b == b'n' {
        return zone_of(Grid::UtmNorth, 60, number);
    }
    if *b == b'S' || *b == b's' {
        return zone_of(Grid::UtmSouth, 60, number);
    }
    sideless(*b, number)
}

fn sideless(byte: u8, number: u32) -> Option<Zone>
    ensures { result ≡ sideless byte number }
{
    if is_digit(byte) || is_letter(byte) {
        return None;
    }
    zone_of(Grid::Utm, 60, number)
}

// Whether a letter or a digit comes next.
fn goes_on(rest: &[u8]) -> bool
    ensures { result ≡ goes_on rest.now }
{
    match rest.split_first() {
        Some((b, _)) => is_digit(*b) || is_letter(*b),
        None => false,
    }
}

fn is_digit(byte: u8) -> bool
    ensures { result ≡ is_digit byte }
{
    48 <= byte && byte <= 57
}

fn is_letter(byte: u8) -> bool
    ensures { result ≡ is_letter byte }
{
    (65 <= byte && byte <= 90) || (97 <= byte && byte <= 122)
}
