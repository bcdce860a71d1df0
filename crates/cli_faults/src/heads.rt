//! The first bytes of files, which tell office files and shelves from files of registers.

ghost use Rattle.std.specs.Prelude.{◌≡◌, ◌↔◌, ◌%◌, ◌++◌, ℕ, List, IsTrue, IfSome, IfNone, codes, take, drop, true, false};
ghost use Rattle.byte_shelf.specs.Shelf.{HasHead, HasNoHead, IsShelf, IsSize, place};
ghost use Rattle.reg_journal.specs.Journal.{Journal};
ghost use Rattle.reg_journal.specs.Text.{BeginsOffice, HoldsOffice};
ghost use Rattle.cli_faults.specs.Heads.{BeginsRegister, BeginsShelf, BeginsSlot};

use byte_disk::{Disk, FileDisk};
use reg_journal::begins_office;
use std::fs::{self, OpenOptions};
use std::rt::Files;

/// No more bytes than these come before the operations in an office file.
const START: usize = 64;

/// The length of the bytes in a slot of a shelf, and the first bytes of a register.
const SLOT: usize = 8;

/// The first bytes of a plain file; and if it may be a shelf, the first bytes of its slot in use.
#[derive(Drop)]
pub struct FileHead {
    start: [u8; START],
    slot: [u8; SLOT],
}

impl FileHead {
    /// Those of the file at a path, and zeros if it has fewer. None if it is no plain file, or can neither be read nor written. The fault is the
    /// place of the first bytes that cannot be read.
    pub fn at<R: Files>(rt: &R, path: &str) -> Result<Option<FileHead>, usize> {
        match fs::metadata(rt, path) {
            Ok(there) if there.is_file() => {}
            _ => return Ok(None),
        }
        let Ok(file) = fs::open(rt, path) else {
            return match OpenOptions::new().write(true).open(rt, path) {
                Ok(_) => Err(0),
                Err(_) => Ok(None),
            };
        };
        let mut disk = FileDisk::new(file);
        let mut head = FileHead {
            start: [0; START],
            slot: [0; SLOT],
        };
        if disk.read_at(0, &mut head.start).is_err() {
            return Err(0);
        }
        if let Some(slot) = slot_in_use(&head.start) {
            if disk.read_at(slot.at, &mut head.slot).is_err() {
                return Err(slot.at as usize);
            }
        }
        Ok(Some(head))
    }

    /// Whether an office file begins so: with its two lines, and then with a register.
    pub fn is_office(&self) -> bool
        ensures exact { IsTrue result ↔ BeginsOffice (codes "CRSR") self.now.start }
        ensures office { (text rest : List ℕ) (f : Journal) → HoldsOffice text f → self.now.start ≡ take 64 (text ++ rest) → result ≡ true }
        ensures register { BeginsRegister self.now.start → result ≡ false }
    {
        begins_office(&self.start, b"CRSR")
    }

    /// What is destroyed if a register is put in the place of the file.
    pub fn spoils(&self) -> Option<Spoiled>
        ensures office { (result ≡ Some Spoiled.Office) ↔ BeginsOffice (codes "CRSR") self.now.start }
        ensures shelf { (result ≡ Some Spoiled.Shelf) ↔ (¬ (BeginsOffice (codes "CRSR") self.now.start) × BeginsShelf self.now.start self.now.slot) }
    {
        if self.is_office() {
            return Some(Spoiled::Office);
        }
        if self.is_shelf() {
            return Some(Spoiled::Shelf);
        }
        None
    }

    /// Whether a shelf begins so: with a gate and a size, and its slot in use with a length and a register.
    pub fn is_shelf(&self) -> bool
        ensures exact { IsTrue result ↔ BeginsShelf self.now.start self.now.slot }
        ensures shelf { (image bytes : List ℕ) → (s : IsShelf image bytes) → BeginsRegister bytes → take 5 self.now.start ≡ take 5 image
            → self.now.slot ≡ take 8 (drop (place s.size (s.gate % 2)) image) → result ≡ true }
        ensures register { BeginsRegister self.now.start → result ≡ false }
    {
        match slot_in_use(&self.start) {
            Some(slot) => begins_slot(&self.slot, slot.size),
            None => false,
        }
    }
}

/// What a file is that a register in its place would destroy.
#[derive(Clone, Copy, PartialEq, Eq)]
pub enum Spoiled {
    Office,
    Shelf,
}

/// A slot of a shelf: where it begins, and its size.
#[derive(Clone, Copy)]
struct Slot {
    at: u64,
    size: u32,
}

// The slot in use of a shelf that begins so, if it has a size that a shelf may have. The low bit of the gate says which slot that is.
fn slot_in_use(start: &[u8; START]) -> Option<Slot>
    ensures found { IfSome result (λ s. IsSize s.size × ((gate : ℕ) × HasHead start.now gate s.size × (s.at ≡ place s.size (gate % 2)))) }
    ensures none { IfNone result (HasNoHead start.now) }
{
    let size = u32::from_be_bytes([start[1], start[2], start[3], start[4]]);
    if size < 14 || 67_108_864 < size {
        return None;
    }
    if start[0] % 2 == 0 {
        return Some(Slot { at: 5, size });
    }
    Some(Slot {
        at: 9 + u64::from(size),
        size,
    })
}

// Whether a slot of this size begins so, if it has a register.
fn begins_slot(slot: &[u8; SLOT], size: u32) -> bool
    ensures { IsTrue result ↔ BeginsSlot size slot.now }
{
    let len = u32::from_be_bytes([slot[0], slot[1], slot[2], slot[3]]);
    len <= size && [slot[4], slot[5], slot[6], slot[7]] == *b"CRSR"
}
