//! News as one sentence.

use crate::codes::Code;
use crate::news::{Grown, News};
use crs_part::Text;
use crs_value::Key;
use std::fmt::{self, Write as _};
use std::str;
use text_hidden::is_hidden;

// The keys that are named; of others, only the number is printed.
const NAMED: usize = 3;

// The characters of an authority or a code that are shown.
const SHOWN: usize = 60;

/// Prints a sentence on one line, and a line for each way on; nothing if nothing grew. Hidden characters print as `?`.
impl fmt::Display for News {
    fn fmt<W: fmt::Write>(&self, f: &mut fmt::Formatter<W>) -> fmt::Result {
        let News {
            entries,
            superseded,
            retired,
            awaited,
            gaps,
            ..
        } = self;
        let mut parts = write_grown(f, 0, entries, "entry more", "entries more")?;
        parts = write_grown(f, parts, superseded, "more superseded", "more superseded")?;
        parts = write_grown(f, parts, retired, "more retired", "more retired")?;
        parts = write_disorder(f, parts, self)?;
        parts = write_again(f, parts, &self.codes)?;
        parts = write_anew(f, parts, &self.codes)?;
        parts = write_withdrawn(f, parts, &self.withdrawn)?;
        parts = write_grown(f, parts, awaited, "awaited id more", "awaited ids more")?;
        parts = write_grown(f, parts, gaps, "gap more", "gaps more")?;
        if parts > 0 {
            f.write_char('\n')?;
        }
        write_hints(f, self)
    }
}

/// Prints the same of codes alone, without how many entries there are more, and, unless asked for, without those that are superseded.
#[derive(Clone, Copy)]
pub struct OfCodes<'a> {
    pub news: &'a News,
    pub superseded: bool,
}

impl fmt::Display for OfCodes<'_> {
    fn fmt<W: fmt::Write>(&self, f: &mut fmt::Formatter<W>) -> fmt::Result {
        let News {
            codes,
            withdrawn,
            ..
        } = self.news;
        let mut parts = write_disorder(f, 0, self.news)?;
        parts = write_again(f, parts, codes)?;
        if self.superseded {
            parts = write_anew(f, parts, codes)?;
        }
        parts = write_withdrawn(f, parts, withdrawn)?;
        if parts > 0 {
            f.write_char('\n')?;
        }
        write_hints(f, self.news)
    }
}

// Writes which codes are not in order any more.
fn write_disorder<W: fmt::Write>(
    f: &mut fmt::Formatter<W>,
    parts: usize,
    news: &News,
) -> Result<usize, fmt::Error> {
    let News {
        conflicts,
        duplicates,
        dangling,
        ..
    } = news;
    let mut parts = parts;
    parts = write_keys(f, parts, conflicts, "new conflict", "new conflicts")?;
    parts = write_keys(
        f,
        parts,
        duplicates,
        "code has equal texts",
        "codes have equal texts",
    )?;
    write_keys(
        f,
        parts,
        dangling,
        "code leads to no valid entry",
        "codes lead to no valid entry",
    )
}

fn write_again<W: fmt::Write>(
    f: &mut fmt::Formatter<W>,
    parts: usize,
    codes: &[Code],
) -> Result<usize, fmt::Error> {
    write_codes(
        f,
        parts,
        codes,
        false,
        "code is in use again",
        "codes are in use again",
    )
}

fn write_anew<W: fmt::Write>(
    f: &mut fmt::Formatter<W>,
    parts: usize,
    codes: &[Code],
) -> Result<usize, fmt::Error> {
    write_codes(
        f,
        parts,
        codes,
        true,
        "code is superseded now, or by others",
        "codes are superseded now, or by others",
    )
}

fn write_withdrawn<W: fmt::Write>(
    f: &mut fmt::Formatter<W>,
    parts: usize,
    keys: &[Key],
) -> Result<usize, fmt::Error> {
    write_keys(
        f,
        parts,
        keys,
        "code has no entry any more",
        "codes have no entry any more",
    )
}

// Writes the ways on.
fn write_hints<W: fmt::Write>(f: &mut fmt::Formatter<W>, news: &News) -> fmt::Result {
    if !news.conflicts.is_empty() {
        f.write_str(
            "hint: crsreg compare REG KEY shows what differs; crsreg settle REG ID keeps one entry of a key\n",
        )?;
    }
    if !news.duplicates.is_empty() {
        f.write_str("hint: crsreg settle REG --equal keeps one entry of each text\n")?;
    }
    if !news.dangling.is_empty() {
        f.write_str("hint: crsreg report REG dangling lists the entries\n")?;
    }
    if !news.withdrawn.is_empty() {
        f.write_str(
            "hint: crsreg report REG withdrawn lists their entries; crsreg wkt ID prints the text of one\n",
        )?;
    }
    Ok(())
}

// Writes what is between two parts.
fn separate<W: fmt::Write>(f: &mut fmt::Formatter<W>, parts: usize) -> fmt::Result {
    if parts > 0 {
        f.write_str("; ")?;
    }
    Ok(())
}

// Writes by how much a number grew, if it did, after so many parts. Returns how many parts there are then.
fn write_grown<W: fmt::Write>(
    f: &mut fmt::Formatter<W>,
    parts: usize,
    count: &Grown,
    one: &str,
    many: &str,
) -> Result<usize, fmt::Error> {
    let more = count.now.saturating_sub(count.before);
    if more == 0 {
        return Ok(parts);
    }
    separate(f, parts)?;
    let words = if more == 1 { one } else { many };
    write!(f, "{more} {words}")?;
    Ok(parts.saturating_add(1))
}

// Writes how many keys there are, and the first of them, if there are any.
fn write_keys<W: fmt::Write>(
    f: &mut fmt::Formatter<W>,
    parts: usize,
    keys: &[Key],
    one: &str,
    many: &str,
) -> Result<usize, fmt::Error> {
    let count = keys.len();
    if count == 0 {
        return Ok(parts);
    }
    separate(f, parts)?;
    let words = if count == 1 { one } else { many };
    write!(f, "{count} {words} (")?;
    for (at, key) in keys.iter().take(NAMED).enumerate() {
        if at > 0 {
            f.write_str(", ")?;
        }
        write_key(f, key)?;
    }
    f.write_str(if count > NAMED { ", ..)" } else { ")" })?;
    Ok(parts.saturating_add(1))
}

fn write_key<W: fmt::Write>(f: &mut fmt::Formatter<W>, key: &Key) -> fmt::Result {
    write_cut(f, shown(&key.authority))?;
    f.write_char(':')?;
    write_cut(f, shown(&key.code))
}

// Writes how many codes are superseded, or in use again, and the first of them, if there are any.
fn write_codes<W: fmt::Write>(
    f: &mut fmt::Formatter<W>,
    parts: usize,
    codes: &[Code],
    superseded: bool,
    one: &str,
    many: &str,
) -> Result<usize, fmt::Error> {
    let count = codes
        .iter()
        .filter(|code| code.superseded == superseded && code.by.is_none())
        .count();
    if count == 0 {
        return Ok(parts);
    }
    separate(f, parts)?;
    let words = if count == 1 { one } else { many };
    write!(f, "{count} {words} (")?;
    let mut named: usize = 0;
    let mut rest = codes;
    while let Some((code, others)) = rest.split_first() {
        rest = others;
        if code.superseded != superseded {
            continue;
        }
        if code.by.is_none() {
            if named >= NAMED {
                break;
            }
            if named > 0 {
                f.write_str(", ")?;
            }
            named = named.saturating_add(1);
        }
        write_code(f, code, others)?;
    }
    f.write_str(if count > NAMED { ", ..)" } else { ")" })?;
    Ok(parts.saturating_add(1))
}

// Writes the code, and `by`, or a key by which the code before is superseded.
fn write_code<W: fmt::Write>(
    f: &mut fmt::Formatter<W>,
    code: &Code,
    others: &[Code],
) -> fmt::Result {
    if let Some(by) = &code.by {
        f.write_char(' ')?;
        return write_key(f, by);
    }
    write_key(f, &code.key)?;
    if !code.superseded {
        return Ok(());
    }
    f.write_str(" by")?;
    match others.first() {
        Some(next) if next.by.is_some() => Ok(()),
        _ => f.write_str(" none"),
    }
}

fn shown(text: &Text) -> &str {
    str::from_utf8(text.as_bytes()).unwrap_or("")
}

// Writes the first characters of a text.
pub(crate) fn write_cut<W: fmt::Write>(f: &mut fmt::Formatter<W>, text: &str) -> fmt::Result {
    for char in text.chars().take(SHOWN) {
        f.write_char(if is_hidden(char) { '?' } else { char })?;
    }
    if text.chars().count() > SHOWN {
        f.write_char('…')?;
    }
    Ok(())
}
