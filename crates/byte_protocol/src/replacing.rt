//! Replacing a file as a whole, while other processes use it.

ghost use Rattle.std.specs.Prelude.{◌≡◌, ◌∷◌, ℕ, true, Option, Some, OnErr, OnOk, IfErr, IfOk, option_map};
ghost use Rattle.byte_system.specs.Disk.{Finds, Locks, Looks, Makes, Unlinks};
ghost use Rattle.byte_system.specs.System.{GoesOn, calls};
ghost use Rattle.byte_protocol.specs.Replacing.{Abandons, Asks, Disowns, Refuses, Replaces, Stops, Unentered, Unswept, begun, entered, replacing, reserved};

use byte_system::{Failed, Mode, NewFileFault, System, There};

/// Why a file was not replaced.
#[derive(Clone, Copy, Debug, PartialEq, Eq)]
pub enum Fault {
    /// The new file could not be made.
    NotMade,
    /// Another process has the new file.
    NewExists,
    /// This many bytes were written, not all.
    NotWritten(usize),
    NotSure,
    /// The old file could not be read again.
    NotRead,
    /// The old file is not the one that was read.
    Changed,
    /// The name of the new file could not be looked at.
    NotLooked,
    /// The name of the new file leads to another file.
    Lost,
    NotPut,
    /// The new file has the name, but a power cut may leave the old one.
    NotSynced,
}

/// The new file that a process has made, and the one that a stopped process had left.
#[derive(Clone, Copy, Debug, PartialEq, Eq)]
pub struct ReservedFile {
    pub file: usize,
    pub left: Option<usize>,
}

/// Makes the new file and replaces the file by it, if that still has the bytes that were read, or if it was not read.
pub fn replace<S: System>(
    system: &mut S,
    out: &[u8],
    new: &[u8],
    mode: Mode,
    read: Option<&[u8]>,
    bytes: &[u8],
) -> Result<(), Fault>
    ensures goes { GoesOn (S.state system.old) (S.state system.new) }
    ensures ok { OnOk result ((left : Option ℕ) × Replaces out.now new.now left (option_map (λ s. s.now) read.entry) bytes.now (S.state system.old) (S.state system.new)) }
    ensures fault { IfErr result (λ e. Abandons e out.now new.now (option_map (λ s. s.now) read.entry) bytes.now
        (calls (S.state system.old)) (calls (S.state system.new))) }
{
    let made = match reserve(system, new, mode) {
        Ok(made) => made,
        Err(fault) => return Err(fault),
    };
    match replace_by(system, made.file, out, new, read, bytes) {
        Ok(()) => Ok(()),
        Err(fault) => Err(fault),
    }
}

/// Makes the new file, so that its name is this process's own. One that a stopped process left is removed, and nothing is written
/// to it. Whoever has the new file reads the old one only now.
pub fn reserve<S: System>(system: &mut S, new: &[u8], mode: Mode) -> Result<ReservedFile, Fault>
    ensures goes { GoesOn (S.state system.old) (S.state system.new) }
    ensures ok { IfOk result (λ m. calls (S.state system.new) ≡ reserved new.now m.left m.file (calls (S.state system.old))) }
    ensures fault { IfErr result (λ e. Refuses e new.now (calls (S.state system.old)) (calls (S.state system.new))) }
{
    let made = match make_new(system, new, mode) {
        Ok(made) => made,
        Err(fault) => return Err(fault),
    };
    match own(system, new, made.file) {
        Ok(()) => Ok(made),
        Err(_) => Err(Fault::NewExists),
    }
}

// Makes the new file. One that a stopped process left is removed first.
fn make_new<S: System>(system: &mut S, new: &[u8], mode: Mode) -> Result<ReservedFile, Fault>
    ensures goes { GoesOn (S.state system.old) (S.state system.new) }
    ensures ok { IfOk result (λ m. calls (S.state system.new) ≡ Makes new.now (Some m.file) ∷ begun new.now m.left (calls (S.state system.old))) }
    ensures fault { IfErr result (λ e. Refuses e new.now (calls (S.state system.old)) (calls (S.state system.new))) }
{
    match system.make_own(new, mode) {
        Ok(file) => return Ok(ReservedFile { file, left: None }),
        Err(NewFileFault::NotMade) => return Err(Fault::NotMade),
        Err(NewFileFault::Exists) => {}
    }
    let left = match sweep(system, new) {
        Ok(left) => left,
        Err(_) => return Err(Fault::NewExists),
    };
    match system.make_own(new, mode) {
        Ok(file) => Ok(ReservedFile {
            file,
            left: Some(left),
        }),
        Err(NewFileFault::NotMade) => Err(Fault::NotMade),
        Err(NewFileFault::Exists) => Err(Fault::NewExists),
    }
}

// Locks the file, and then looks whether the name leads to it.
fn own<S: System>(system: &mut S, new: &[u8], file: usize) -> Result<(), Failed>
    ensures goes { GoesOn (S.state system.old) (S.state system.new) }
    ensures ok { OnOk result (calls (S.state system.new) ≡ Looks new.now file true ∷ Locks file true ∷ calls (S.state system.old)) }
    ensures err { OnErr result (Disowns new.now file (calls (S.state system.old)) (calls (S.state system.new))) }
{
    match system.lock(file) {
        Ok(true) => {}
        Ok(false) => return Err(Failed),
        Err(_) => return Err(Failed),
    }
    match system.is_named(new, file) {
        Ok(true) => Ok(()),
        Ok(false) => Err(Failed),
        Err(_) => Err(Failed),
    }
}

// Opens the file with the name and locks it, and then looks whether the name leads to it.
fn enter<S: System>(system: &mut S, path: &[u8]) -> Result<usize, Failed>
    ensures goes { GoesOn (S.state system.old) (S.state system.new) }
    ensures ok { IfOk result (λ i. calls (S.state system.new) ≡ entered path.now i (calls (S.state system.old))) }
    ensures err { OnErr result (Unentered path.now (calls (S.state system.old)) (calls (S.state system.new))) }
{
    let file = match system.open_left(path) {
        Ok(file) => file,
        Err(_) => return Err(Failed),
    };
    match own(system, path, file) {
        Ok(()) => Ok(file),
        Err(fault) => Err(fault),
    }
}

// Removes the file that a stopped process left.
fn sweep<S: System>(system: &mut S, new: &[u8]) -> Result<usize, Failed>
    ensures goes { GoesOn (S.state system.old) (S.state system.new) }
    ensures swept { IfOk result (λ n. calls (S.state system.new) ≡ Unlinks new.now ∷ entered new.now n (Finds new.now true ∷ calls (S.state system.old))) }
    ensures err { OnErr result (Unswept new.now (calls (S.state system.old)) (calls (S.state system.new))) }
{
    if let Err(_) = find_left(system, new) {
        return Err(Failed);
    }
    let file = match enter(system, new) {
        Ok(file) => file,
        Err(_) => return Err(Failed),
    };
    match system.unlink(new) {
        Ok(()) => Ok(file),
        Err(_) => Err(Failed),
    }
}

// Finds a file that a stopped process may have left. A link, or a file with a second name, is another file.
fn find_left<S: System>(system: &mut S, new: &[u8]) -> Result<(), Failed>
    ensures goes { GoesOn (S.state system.old) (S.state system.new) }
    ensures ok { OnOk result (calls (S.state system.new) ≡ Finds new.now true ∷ calls (S.state system.old)) }
    ensures err { OnErr result (Asks new.now (calls (S.state system.old)) (calls (S.state system.new))) }
{
    match system.look(new) {
        Ok(There::Sole) => Ok(()),
        Ok(There::Shared) => Err(Failed),
        Ok(There::Other) => Err(Failed),
        Ok(There::Nothing) => Err(Failed),
        Err(_) => Err(Failed),
    }
}

/// Replaces the file by the new one, which this process has reserved.
pub fn replace_by<S: System>(
    system: &mut S,
    file: usize,
    out: &[u8],
    new: &[u8],
    read: Option<&[u8]>,
    bytes: &[u8],
) -> Result<(), Fault>
    ensures goes { GoesOn (S.state system.old) (S.state system.new) }
    ensures ok { OnOk result (calls (S.state system.new) ≡ replacing out.now new.now file (option_map (λ s. s.now) read.entry) bytes.now (calls (S.state system.old))) }
    ensures fault { IfErr result (λ e. Stops e out.now new.now file (option_map (λ s. s.now) read.entry) bytes.now
        (calls (S.state system.old)) (calls (S.state system.new))) }
{
    let n = system.write(file, bytes);
    if n != bytes.len() {
        let _ = system.unlink(new);
        return Err(Fault::NotWritten(n));
    }
    if system.sync(file).is_err() {
        let _ = system.unlink(new);
        return Err(Fault::NotSure);
    }
    if let Some(read) = read {
        match system.has(out, read) {
            Ok(true) => {}
            Ok(false) => {
                let _ = system.unlink(new);
                return Err(Fault::Changed);
            }
            Err(_) => {
                let _ = system.unlink(new);
                return Err(Fault::NotRead);
            }
        }
    }
    match system.is_named(new, file) {
        Ok(true) => {}
        Ok(false) => return Err(Fault::Lost),
        Err(_) => return Err(Fault::NotLooked),
    }
    if system.rename(new, out).is_err() {
        let _ = system.unlink(new);
        return Err(Fault::NotPut);
    }
    if system.sync_folder(out).is_err() {
        return Err(Fault::NotSynced);
    }
    Ok(())
}
