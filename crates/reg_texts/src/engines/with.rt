//! The command `compare --with`.

ghost use Rattle.std.specs.Prelude.{ℕ, List, IfOk, IfErr};
ghost use Rattle.wkt_tree.specs.Tree.{Piece};
ghost use Rattle.wkt_compare.specs.Texts.{IsCutInto};
ghost use Rattle.reg_texts.specs.Given.{IsFileUnread, IsFirstLeft};
ghost use Rattle.reg_texts.specs.With.{IsRefusedIn, IsLeftIn, IsComparedWithFile, IsUncomparedWith, IsComparedInPart, IsUncomparedInPart};

use crate::against::{UnreadTexts, compared_texts, compared_where_read};
use crate::engines::differs::has_any;
use byte_io::{Sink, Source, write_all};
use reg_engine::{CliFault, OutFault, Store, read_whole};
use std::alloc::Global;
use wkt_crs::DefinitionFault;

/// Why the texts of a file are not compared with a register.
#[derive(Clone, Copy, Debug, PartialEq, Eq)]
pub enum WithFault {
    Cli(CliFault),
    /// A text of the file with this number is not a definition, for this reason.
    Refused {
        fault: DefinitionFault,
        /// The offset in the file of the fault, or of the text's first byte if the fault has no place.
        at: usize,
        /// The offset in the file of the text's first byte.
        place: usize,
        /// The length of the text in bytes.
        len: usize,
        file: usize,
    },
}

/// Loads the register, reads the file after it, writes what differs between each text of the file and the entries of its key, and
/// returns whether anything differs. `name` is the file's name in the header lines.
pub fn run_compared_with<T: Store, S: Source, K: Sink>(
    alloc: Global,
    store: &mut T,
    name: &[u8],
    file: &mut S,
    sink: &mut K,
) -> Result<bool, WithFault>
    ensures same { T.same store.old store.new }
    ensures printed { IfOk result (IsComparedWithFile (T.around store.old store.new) name.now (S.state file.old) (S.state file.new) (K.state sink.old) (K.state sink.new)) }
    ensures fault { IfErr result (IsUncomparedWith (T.around store.old store.new) (T.next store.old) name.now (S.state file.old) (S.state file.new) (K.state sink.old) (K.state sink.new)) }
{
    let next = store.next();
    let register = match store.load(alloc) {
        Ok(register) => register,
        Err(fault) => return Err(WithFault::Cli(fault)),
    };
    let bytes = match read_whole(alloc, next, file) {
        Ok(bytes) => bytes,
        Err(fault) => return Err(WithFault::Cli(fault)),
    };
    let text = match compared_texts(alloc, &register, name, &bytes) {
        Ok(text) => text,
        Err(why) => return Err(refused_in(next, why)),
    };
    match write_all(sink, &text) {
        Ok(()) => Ok(has_any(&text)),
        Err(fault) => Err(WithFault::Cli(CliFault::Out(OutFault::WriteFailed(fault.written)))),
    }
}

/// Whether anything differs, and the first text that was passed over, if there is one.
#[derive(Clone, Copy, Debug, PartialEq, Eq)]
pub struct ComparedPart {
    pub differs: bool,
    pub left: Option<WithFault>,
}

/// The same, where texts that are not definitions are passed over, and the first of them is returned.
pub fn run_compared_where_read<T: Store, S: Source, K: Sink>(
    alloc: Global,
    store: &mut T,
    name: &[u8],
    file: &mut S,
    sink: &mut K,
) -> Result<ComparedPart, CliFault>
    ensures same { T.same store.old store.new }
    ensures printed { IfOk result (IsComparedInPart (T.around store.old store.new) (T.next store.old) name.now (S.state file.old) (S.state file.new) (K.state sink.old) (K.state sink.new)) }
    ensures fault { IfErr result (IsUncomparedInPart (T.around store.old store.new) (T.next store.old) name.now (S.state file.old) (S.state file.new) (K.state sink.old) (K.state sink.new)) }
{
    let next = store.next();
    let register = match store.load(alloc) {
        Ok(register) => register,
        Err(fault) => return Err(fault),
    };
    let bytes = match read_whole(alloc, next, file) {
        Ok(bytes) => bytes,
        Err(fault) => return Err(fault),
    };
    let made = match compared_where_read(alloc, &register, name, &bytes) {
        Ok(made) => made,
        Err(_) => return Err(CliFault::Memory),
    };
    match write_all(sink, &made.text) {
        Ok(()) => Ok(ComparedPart {
            differs: has_any(&made.text),
            left: left_in(next, made.first),
        }),
        Err(fault) => Err(CliFault::Out(OutFault::WriteFailed(fault.written))),
    }
}

fn left_in(file: usize, first: Option<UnreadTexts>) -> Option<WithFault>
    ensures { (bytes : List ℕ) (cuts : List Piece) → IsCutInto bytes cuts → IsFirstLeft cuts first → IsLeftIn file bytes cuts result }
{
    match first {
        Some(why) => Some(refused_in(file, why)),
        None => None,
    }
}

// The fault of a text in the file with this number.
fn refused_in(file: usize, why: UnreadTexts) -> WithFault
    ensures { (bytes : List ℕ) → IsFileUnread bytes why → IsRefusedIn file bytes result }
{
    match why {
        UnreadTexts::Refused {
            fault,
            at,
            place,
            len,
        } => WithFault::Refused {
            fault,
            at,
            place,
            len,
            file,
        },
        UnreadTexts::Memory => WithFault::Cli(CliFault::Memory),
    }
}
