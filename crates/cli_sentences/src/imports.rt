//! The sentence for a refused import.
use crate::paths::{FileName, Paths, RegisterArgument, SpecialCommand};
use crate::shown::EntryHead;
use reg_op::OpId;
use std::fmt;

/// The hint below a text that ends the command.
pub const LEAVES_OUT: &str = "hint: --keep-going leaves it out";

/// The hint below a file of crsreg in the place of texts, which no option enters.
pub const TAKE_JOINS: &str =
    "hint: a file of crsreg has no texts to import: crsreg take joins a register or a piece to REG";

/// The sentence of `KeyTaken`, and the way out. A text that cannot be read has none: it is explained at its place.
#[derive(Clone, Copy)]
pub struct KeyTaken<'a> {
    /// The entry that has the key of the text.
    pub entry: OpId,
    /// The key, the id and the status of the entry. None if the command itself made it, or if its register cannot be read again.
    pub head: Option<&'a str>,
    /// The file with the text.
    pub file: FileName<'a>,
    /// The files that the command names.
    pub paths: Paths<'a>,
}

impl fmt::Display for KeyTaken<'_> {
    fn fmt<W: fmt::Write>(&self, f: &mut fmt::Formatter<W>) -> fmt::Result {
        let (entry, file) = (self.entry, self.file);
        match self.head {
            Some(head) => {
                let head = EntryHead(head);
                writeln!(
                    f,
                    "{file}: the register has the key of this text, with another text: {head}"
                )?;
            }
            None => writeln!(
                f,
                "{file}: the entry {entry} has the key of this text, and another text",
            )?,
        }
        let register = RegisterArgument::of(&self.paths);
        write!(f, "hint: crsreg compare {register} --with ")?;
        file.write_argument(f)?;
        f.write_str(match self.paths.command {
            SpecialCommand::Import { revises: true } =>
                " shows what differs; --differs revise keeps what this command enters or finds, so leave out one of the two texts; --differs beside enters it as well\n",
            _ =>
                " shows what differs; --differs beside enters it as well; --differs revise also retires the other entries\n",
        })
    }
}
