//! Texts as they are printed: without characters that a reader does not see, or that a terminal would act on.
use std::fmt::{self, Write as _};
use text_hidden::is_hidden;

/// A path as it is printed: a hidden character prints as `?`, and no path at all as `''`.
#[derive(Clone, Copy)]
pub struct Shown<'a>(pub &'a str);

impl fmt::Display for Shown<'_> {
    fn fmt<W: fmt::Write>(&self, f: &mut fmt::Formatter<W>) -> fmt::Result {
        if self.0.is_empty() {
            return f.write_str("''");
        }
        write_shown(f, self.0)
    }
}

/// The path of the new file beside the file with this path, as it is printed.
#[derive(Clone, Copy)]
pub struct NewBeside<'a>(pub &'a str);

impl fmt::Display for NewBeside<'_> {
    fn fmt<W: fmt::Write>(&self, f: &mut fmt::Formatter<W>) -> fmt::Result {
        let name = match self.0.rsplit_once('/') {
            Some((folder, name)) => {
                write_shown(f, folder)?;
                f.write_char('/')?;
                name
            }
            None => self.0,
        };
        f.write_char('.')?;
        write_shown(f, name)?;
        f.write_str(".crsreg")
    }
}

/// The key, the id and the status of an entry as they are printed: a hidden character prints as `?`.
#[derive(Clone, Copy)]
pub struct EntryHead<'a>(pub &'a str);

impl fmt::Display for EntryHead<'_> {
    fn fmt<W: fmt::Write>(&self, f: &mut fmt::Formatter<W>) -> fmt::Result {
        write_shown(f, self.0)
    }
}

/// Lines as they are printed: a hidden character prints as `?`, except for the ends of the lines.
#[derive(Clone, Copy)]
pub struct ShownLines<'a>(pub &'a str);

impl fmt::Display for ShownLines<'_> {
    fn fmt<W: fmt::Write>(&self, f: &mut fmt::Formatter<W>) -> fmt::Result {
        for char in self.0.chars() {
            let is_kept = char == '\n' || !is_hidden(char);
            f.write_char(if is_kept { char } else { '?' })?;
        }
        Ok(())
    }
}

fn write_shown<W: fmt::Write>(f: &mut fmt::Formatter<W>, text: &str) -> fmt::Result {
    for char in text.chars() {
        f.write_char(if is_hidden(char) { '?' } else { char })?;
    }
    Ok(())
}
