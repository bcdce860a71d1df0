//! The place of a path: a new file that takes the place of the old one, or a device that is written.

ghost use Rattle.std.specs.Prelude.{◌≡◌, ◌++◌, [], None, Some, true, IsSome, IfSome, IfOk, IfErr, OnOk, option_map};
ghost use Rattle.std.specs.String.{string_bytes};
ghost use Rattle.byte_io.specs.Device.{target_of, Opens};
ghost use Rattle.byte_io.specs.Whole.{WritesAll, IsCutAt};
ghost use Rattle.byte_out.specs.Own.{IsOwnPath, file_of};
ghost use Rattle.byte_out.specs.Place.{untold, CountsOnly, ComparesOnly, PutsOnly};
ghost use Rattle.byte_system.specs.System.{calls};
ghost use Rattle.byte_place.specs.Course.{has_landed, is_owned, read_of};
ghost use Rattle.byte_place.specs.Ways.{HasPut, is_beside};
ghost use Rattle.byte_place.specs.declared.path_place.Way.TheVariants as way;

use crate::call_place::CallPlace;
use crate::systems::SystemSource;
use crate::way::{Led, leads};
use byte_io::{DeviceFault, Log, Tally, WriteFault};
use byte_out::{Chunks, CompareFault, DirectPlace, FileId, MakeFault, Place, PutFault, own_path};
use byte_system::System;
use std::alloc::{AllocError, Global};
use std::rt::Files;

/// How a file is written.
#[derive(Clone, Copy, Debug, PartialEq, Eq)]
pub(crate) enum Way {
    Closed,
    Beside,
    Direct,
}

/// The place of a path; if the path is a link to a plain file, the place of that file. A plain file is replaced by a new one beside it,
/// and never written where it is. What is no plain file is written by the place `direct`.
pub struct PathPlace<'a, R: Files, S: System + Drop, M: SystemSource<S> + Drop> {
    pub(crate) rt: &'a R,
    pub(crate) path: &'a str,
    /// The file that the path, a link, leads to.
    pub(crate) led: Option<String>,
    /// Whether the path is a link, and nobody knows where it leads.
    pub(crate) is_lost: bool,
    pub(crate) avoided: Option<FileId>,
    pub(crate) source: M,
    pub(crate) beside: CallPlace<S>,
    pub(crate) direct: DirectPlace<'a, R>,
    pub(crate) way: Way,
    taken: Log,
    failures: Tally,
    openings: Tally,
}

// A new file that was reserved and not used is removed.
impl<R: Files, S: System + Drop, M: SystemSource<S> + Drop> Drop for PathPlace<'_, R, S, M> {
    fn drop(self) {
        let PathPlace {
            rt: _,
            path: _,
            led: _,
            is_lost: _,
            avoided: _,
            source: _,
            mut beside,
            direct: _,
            way: _,
            taken: _,
            failures: _,
            openings: _,
        } = self;
        beside.release();
        drop(beside);
    }
}

impl<'a, R: Files, S: System + Drop, M: SystemSource<S> + Drop> PathPlace<'a, R, S, M> {
    /// The place of a path. Nothing is made or opened yet. If the path leads to the file `avoided`, which the command also writes,
    /// the place does not open.
    pub fn new(
        alloc: Global,
        rt: &'a R,
        path: &'a str,
        avoided: Option<FileId>,
        source: M,
    ) -> Result<PathPlace<'a, R, S, M>, AllocError>
        ensures path { IfOk result (λ p. p.path ≡ path.entry) }
        ensures avoided { IfOk result (λ p. p.avoided ≡ avoided) }
        ensures out { IfOk result (λ p. p.beside.out.items ≡ file_of (option_map string_bytes p.led) path.entry.now) }
        ensures beside { IfOk result (λ p. IsOwnPath (file_of (option_map string_bytes p.led) path.entry.now) p.beside.beside.items) }
        ensures untold { IfOk result (λ p. ⟦<PathPlace<'a, R, S, M> as Place>⟧.state p ≡ untold (target_of None)) }
    {
        let (led, is_lost) = match leads(alloc, rt, path)? {
            Led::To(real) => (Some(real), false),
            Led::Itself => (None, false),
            Led::Unknown => (None, true),
        };
        let real = file_of(&led, path);
        let own = own_path(alloc, real)?;
        let system = source.system()?;
        let beside = place_beside(alloc, real, &own, system)?;
        let direct = DirectPlace::new(rt, path);
        Ok(PathPlace {
            rt,
            path,
            led,
            is_lost,
            avoided,
            source,
            beside,
            direct,
            way: Way::Closed,
            taken: Log::empty(),
            failures: Tally::none(),
            openings: Tally::none(),
        })
    }
}

// The place of a file with a new one beside it, which has its own path.
fn place_beside<S: System + Drop>(
    alloc: Global,
    real: &str,
    own: &str,
    system: S,
) -> Result<CallPlace<S>, AllocError>
    requires { calls (S.state system) ≡ [] }
    ensures out { IfOk result (λ p. p.out.items ≡ real.now) }
    ensures beside { IfOk result (λ p. p.beside.items ≡ own.now) }
{
    let out = real.as_bytes().to_vec(alloc)?;
    let beside = own.as_bytes().to_vec(alloc)?;
    Ok(CallPlace::new(system, out, beside))
}

/// The file that a link leads to, or else the one with the path.
pub(crate) fn file_of<'a>(led: &'a Option<String>, path: &'a str) -> &'a str
    ensures { result.now ≡ file_of (option_map string_bytes led.now) path.now }
{
    match led {
        Some(real) => real.as_str(),
        None => path,
    }
}

impl<'a, R: Files, S: System + Drop, M: SystemSource<S> + Drop> Place for PathPlace<'a, R, S, M> {
    ghost state = { λ s. record {
      sink = record {
        written = None;
        taken = s.taken.bytes;
        failures = s.failures.count;
        stalls = 0;
        openings = s.openings.count;
      };
      files = None;
    } };

    fn make(&mut self) -> Result<(), MakeFault>
        ensures calls { Opens result (⟦<PathPlace<'a, R, S, M> as Place>⟧.state self.old).sink (⟦<PathPlace<'a, R, S, M> as Place>⟧.state self.new).sink }
        ensures owned { OnOk result (is_beside self.new.way ≡ true → is_owned self.new.beside.at ≡ true) }
        ensures empty { OnOk result (is_beside self.new.way ≡ true → self.new.beside.taken.bytes ≡ []) }
    {
        match self.opens() {
            Ok(way) => {
                self.way = way;
                self.openings = Tally::after(&self.openings);
                Ok(())
            }
            Err(fault) => {
                self.failures = Tally::after(&self.failures);
                Err(fault)
            }
        }
    }

    fn write(&mut self, bytes: &[u8]) -> Result<(), WriteFault>
        ensures ok { OnOk result (WritesAll bytes.now (⟦<PathPlace<'a, R, S, M> as Place>⟧.state self.old).sink (⟦<PathPlace<'a, R, S, M> as Place>⟧.state self.new).sink) }
        ensures fault { IfErr result (λ e. IsCutAt e.written bytes.now (⟦<PathPlace<'a, R, S, M> as Place>⟧.state self.old).sink (⟦<PathPlace<'a, R, S, M> as Place>⟧.state self.new).sink) }
        ensures beside { OnOk result (self.old.way ≡ way.Beside → self.new.beside.taken.bytes ≡ self.old.beside.taken.bytes ++ bytes.now) }
    {
        match self.way {
            Way::Beside => {}
            // `put` writes the bytes.
            Way::Direct => {
                self.taken.note(bytes);
                return Ok(());
            }
            Way::Closed => {
                if bytes.is_empty() {
                    return Ok(());
                }
                self.failures = Tally::after(&self.failures);
                return Err(WriteFault { written: 0 });
            }
        }
        match self.beside.write(bytes) {
            Ok(()) => {
                self.taken.note(bytes);
                Ok(())
            }
            Err(fault) => {
                self.taken.note(&bytes[..fault.written]);
                self.failures = Tally::after(&self.failures);
                Err(fault)
            }
        }
    }

    fn sync(&mut self) -> Result<(), DeviceFault>
        ensures calls { CountsOnly result (⟦<PathPlace<'a, R, S, M> as Place>⟧.state self.old).sink (⟦<PathPlace<'a, R, S, M> as Place>⟧.state self.new).sink }
        ensures taken { self.new.beside.taken.bytes ≡ self.old.beside.taken.bytes }
    {
        match self.way {
            Way::Beside => {}
            Way::Closed | Way::Direct => return Ok(()),
        }
        if self.beside.sync().is_err() {
            self.failures = Tally::after(&self.failures);
            return Err(DeviceFault);
        }
        Ok(())
    }

    fn compare(&mut self, read: &[u8]) -> Result<(), CompareFault>
        ensures calls { ComparesOnly result (⟦<PathPlace<'a, R, S, M> as Place>⟧.state self.old).sink (⟦<PathPlace<'a, R, S, M> as Place>⟧.state self.new).sink }
        ensures read { OnOk result (is_beside self.old.way ≡ true → read_of self.new.beside.unread self.new.beside.found.bytes ≡ Some read.now) }
        ensures taken { self.new.beside.taken.bytes ≡ self.old.beside.taken.bytes }
    {
        let way = self.way;
        match self.compares(way, read) {
            Ok(()) => Ok(()),
            Err(CompareFault::Changed) => Err(CompareFault::Changed),
            Err(fault) => {
                self.failures = Tally::after(&self.failures);
                Err(fault)
            }
        }
    }

    fn put<C: Chunks>(&mut self, read: Option<&[u8]>, content: &mut C) -> Result<(), PutFault>
        ensures calls { PutsOnly result (C.bytes content.old) (⟦<PathPlace<'a, R, S, M> as Place>⟧.state self.old).sink (⟦<PathPlace<'a, R, S, M> as Place>⟧.state self.new).sink }
        ensures put { OnOk result (HasPut self.new.way self.new.beside.at self.new.direct.got.bytes (C.bytes content.old)) }
        ensures read { IsSome read.entry → read_of self.new.beside.unread self.new.beside.found.bytes ≡ read_of self.old.beside.unread self.old.beside.found.bytes }
        ensures taken { OnOk result (is_beside self.new.way ≡ true → self.new.beside.taken.bytes ≡ self.old.beside.taken.bytes) }
    {
        let way = self.way;
        let whole = content.len();
        match self.puts(way, read, content, whole) {
            Ok(()) => Ok(()),
            Err(PutFault::Changed) => Err(PutFault::Changed),
            Err(fault) => {
                self.failures = Tally::after(&self.failures);
                Err(fault)
            }
        }
    }

    fn land(&mut self) -> Result<(), DeviceFault>
        ensures calls { CountsOnly result (⟦<PathPlace<'a, R, S, M> as Place>⟧.state self.old).sink (⟦<PathPlace<'a, R, S, M> as Place>⟧.state self.new).sink }
        ensures landed { OnOk result (self.old.way ≡ way.Beside → has_landed self.new.beside.at ≡ true) }
    {
        match self.way {
            Way::Beside => {}
            Way::Closed | Way::Direct => return Ok(()),
        }
        if self.beside.land().is_err() {
            self.failures = Tally::after(&self.failures);
            return Err(DeviceFault);
        }
        self.renews();
        Ok(())
    }

    fn remove(&mut self) {
        match self.way {
            Way::Beside => self.beside.remove(),
            Way::Closed | Way::Direct => {}
        }
    }
}
