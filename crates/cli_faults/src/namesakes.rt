//! Keys that one word of the command line names: letters of their authorities differ in case, or the authority ends at another colon.
use reg_keys::has_key;
use reg_op::OpId;
use reg_report::{Row, find_row, is_live, rows};
use reg_state::Register;
use std::alloc::{AllocError, Global};

/// Whether an entry that is not retired has another key than this one, although the key of this one names it too. None if the register
/// has no such entry, or if memory runs out.
pub fn has_namesake(alloc: Global, register: &Register, entry: OpId) -> Option<bool> {
    let Ok(rows) = rows(alloc, register) else {
        return None;
    };
    let Some(own) = find_row(&rows, entry) else {
        return None;
    };
    let word = word_of(alloc, own).ok()?;
    for row in &rows {
        if is_live(row) && has_key(row, &word) && !have_one_key(row, own) {
            return Some(true);
        }
    }
    Some(false)
}

/// Whether the register has an entry of the word that is not retired. None if memory runs out.
pub fn shows(alloc: Global, register: &Register, word: &[u8]) -> Option<bool> {
    let rows = rows(alloc, register).ok()?;
    Some(rows.iter().any(|row| is_live(row) && has_key(row, word)))
}

// The key of the row as a word.
fn word_of(alloc: Global, row: &Row) -> Result<Vec<u8>, AllocError> {
    let key = row.definition.key();
    let mut word = Vec::new(alloc);
    word.extend_from_slice(key.authority.as_bytes())?;
    word.push(b':')?;
    word.extend_from_slice(key.code.as_bytes())?;
    Ok(word)
}

fn have_one_key(one: &Row, other: &Row) -> bool {
    let key = one.definition.key();
    let other = other.definition.key();
    key.authority.as_bytes() == other.authority.as_bytes()
        && key.code.as_bytes() == other.code.as_bytes()
}
