//! Says and prints what a join undid.
use clap::ArgMatches;
use cli_faults::{CommandFiles, say};
use cli_open::print;
use reg_engine::CliFault;
use reg_report::KeyText;
use reg_state::Register;
use reg_tree::undone::{SayingText, undone_in};
use std::fmt::{self, Write as _};
use std::io::{self, Write};
use std::str;
use text_hidden::is_hidden;

// The codes that are named; of others, only the number is printed.
const NAMED: usize = 3;

// The characters of an authority or a code that are shown.
const SHOWN: usize = 60;

/// Where rows are printed, unless the list of what a join undid is printed in their place.
#[derive(Drop)]
pub struct UnlessListed<W> {
    out: W,
    is_listed: bool,
}

impl<W> UnlessListed<W> {
    /// The writer of the rows of this command line.
    pub fn new(matches: &ArgMatches<'_>, out: W) -> UnlessListed<W> {
        UnlessListed {
            out,
            is_listed: matches.get_flag("undone"),
        }
    }
}

impl<W: Write> Write for UnlessListed<W> {
    fn write(&mut self, bytes: &[u8]) -> io::Result<usize> {
        if self.is_listed {
            return Ok(bytes.len());
        }
        self.out.write(bytes)
    }

    fn flush(&mut self) -> io::Result<()> {
        self.out.flush()
    }
}

// What was superseded or withdrawn, and is not any more.
#[derive(Clone, Copy)]
struct UndoneSaid<'a> {
    sayings: &'a [SayingText<'a>],
}

// The same as the list that `supersede --from` takes.
#[derive(Clone, Copy)]
struct UndoneLines<'a> {
    sayings: &'a [SayingText<'a>],
}

// Codes of which no line of a list can say it.
#[derive(Clone, Copy)]
struct UnlistedSaid<'a> {
    sayings: &'a [SayingText<'a>],
}

/// Says what a join undid.
pub fn say_undone(rt: &HostRuntime, sayings: &[SayingText<'_>], named: &CommandFiles<'_>) {
    say(rt, &UndoneSaid { sayings }, named);
}

/// Prints a line for each key that the join of the inputs undid: the list that `supersede --from` takes, and then the withdrawn ones.
/// Those that no line can say are reported, where sentences are on.
pub fn print_undone(
    rt: &HostRuntime,
    inputs: &[Register],
    join: &Register,
    named: &Option<CommandFiles<'_>>,
) -> Result<(), CliFault> {
    let Ok(sayings) = undone_in(rt.alloc(), inputs, join) else {
        return Err(CliFault::Memory);
    };
    if let Some(named) = named {
        say(rt, &UnlistedSaid { sayings: &sayings }, named);
    }
    print(rt, &UndoneLines { sayings: &sayings })
}

// A line for each key that is superseded, with those that supersede it; and then one for each that is withdrawn.
impl fmt::Display for UndoneLines<'_> {
    fn fmt<W: fmt::Write>(&self, f: &mut fmt::Formatter<W>) -> fmt::Result {
        write_links(f, self.sayings)?;
        for saying in self.sayings {
            if saying.by.is_none() && is_listed(saying) {
                write_whole(f, &saying.key)?;
                f.write_char('\n')?;
            }
        }
        Ok(())
    }
}

fn write_links<W: fmt::Write>(
    f: &mut fmt::Formatter<W>,
    sayings: &[SayingText<'_>],
) -> fmt::Result {
    let mut last: Option<KeyText<'_>> = None;
    for saying in sayings {
        let Some(by) = &saying.by else {
            continue;
        };
        if !is_listed(saying) {
            continue;
        }
        if last != Some(saying.key) {
            if last.is_some() {
                f.write_char('\n')?;
            }
            write_whole(f, &saying.key)?;
            last = Some(saying.key);
        }
        f.write_char(' ')?;
        write_whole(f, by)?;
    }
    if last.is_some() {
        f.write_char('\n')?;
    }
    Ok(())
}

fn write_whole<W: fmt::Write>(f: &mut fmt::Formatter<W>, key: &KeyText<'_>) -> fmt::Result {
    f.write_str(str::from_utf8(key.authority).unwrap_or(""))?;
    f.write_char(':')?;
    f.write_str(str::from_utf8(key.code).unwrap_or(""))
}

// Whether its keys can stand in a line of a list.
fn is_listed(saying: &SayingText<'_>) -> bool {
    if let Some(by) = &saying.by {
        if has_blank(by) {
            return false;
        }
    }
    !has_blank(&saying.key)
}

fn has_blank(key: &KeyText<'_>) -> bool {
    key.authority.iter().any(|byte| *byte <= b' ') || key.code.iter().any(|byte| *byte <= b' ')
}

// How many keys they are about.
fn count_codes(sayings: &[SayingText<'_>]) -> usize {
    let mut last: Option<KeyText<'_>> = None;
    let mut count: usize = 0;
    for saying in sayings {
        if last != Some(saying.key) {
            count = count.saturating_add(1);
        }
        last = Some(saying.key);
    }
    count
}

impl fmt::Display for UndoneSaid<'_> {
    fn fmt<W: fmt::Write>(&self, f: &mut fmt::Formatter<W>) -> fmt::Result {
        let count = count_codes(self.sayings);
        if count == 0 {
            return Ok(());
        }
        let are = if count == 1 { "code was" } else { "codes were" };
        write!(
            f,
            "{count} {are} superseded or withdrawn, and changed by an office that did not know of it ("
        )?;
        write_codes(f, self.sayings)?;
        f.write_str(if count > NAMED { ", ..)\n" } else { ")\n" })?;
        write_hint(f, self.sayings)
    }
}

// Writes the first keys, each with those that supersede it, or that it is withdrawn.
fn write_codes<W: fmt::Write>(
    f: &mut fmt::Formatter<W>,
    sayings: &[SayingText<'_>],
) -> fmt::Result {
    let mut last: Option<KeyText<'_>> = None;
    let mut count: usize = 0;
    for saying in sayings {
        let is_new = last != Some(saying.key);
        if is_new {
            if count == NAMED {
                return Ok(());
            }
            if count > 0 {
                f.write_str(", ")?;
            }
            write_key(f, &saying.key)?;
            count = count.saturating_add(1);
        }
        last = Some(saying.key);
        match &saying.by {
            Some(by) => {
                f.write_str(if is_new { " by " } else { " " })?;
                write_key(f, by)?;
            }
            None => f.write_str(" withdrawn")?,
        }
    }
    Ok(())
}

// Writes the command that says the first of them again that a command line can.
fn write_hint<W: fmt::Write>(f: &mut fmt::Formatter<W>, sayings: &[SayingText<'_>]) -> fmt::Result {
    let Some(saying) = sayings.iter().find(|saying| is_listed(saying)) else {
        return Ok(());
    };
    match &saying.by {
        Some(by) => {
            f.write_str("hint: crsreg supersede -k REG ")?;
            write_key(f, &saying.key)?;
            f.write_char(' ')?;
            write_key(f, by)?;
        }
        None => {
            f.write_str("hint: crsreg retire -k REG ")?;
            write_key(f, &saying.key)?;
        }
    }
    f.write_char('\n')
}

impl fmt::Display for UnlistedSaid<'_> {
    fn fmt<W: fmt::Write>(&self, f: &mut fmt::Formatter<W>) -> fmt::Result {
        let mut last: Option<KeyText<'_>> = None;
        let mut count: usize = 0;
        for saying in self.sayings {
            if is_listed(saying) || last == Some(saying.key) {
                continue;
            }
            last = Some(saying.key);
            if count < NAMED {
                f.write_str(if count == 0 {
                    "no line says it of "
                } else {
                    ", "
                })?;
                write_key(f, &saying.key)?;
            }
            count = count.saturating_add(1);
        }
        match count {
            0 => Ok(()),
            _ if count > NAMED => writeln!(
                f,
                ", .. ({count} codes), since a key has a blank: name the entries by id"
            ),
            _ => f.write_str(", since a key has a blank: name the entries by id\n"),
        }
    }
}

fn write_key<W: fmt::Write>(f: &mut fmt::Formatter<W>, key: &KeyText<'_>) -> fmt::Result {
    write_cut(f, key.authority)?;
    f.write_char(':')?;
    write_cut(f, key.code)
}

// Writes the first characters of a text. Hidden characters print as `?`.
fn write_cut<W: fmt::Write>(f: &mut fmt::Formatter<W>, text: &[u8]) -> fmt::Result {
    let text = str::from_utf8(text).unwrap_or("");
    for char in text.chars().take(SHOWN) {
        f.write_char(if is_hidden(char) { '?' } else { char })?;
    }
    if text.chars().count() > SHOWN {
        f.write_char('…')?;
    }
    Ok(())
}
