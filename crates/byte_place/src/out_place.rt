//! The place of a path over the files of the system, as commands use it.

ghost use Rattle.std.specs.Prelude.{◌≡◌, ◌++◌, [], None, Some, true, IsSome, IfSome, IfOk, IfErr, OnOk, option_map};
ghost use Rattle.std.specs.String.{string_bytes};
ghost use Rattle.byte_io.specs.Device.{target_of, Opens};
ghost use Rattle.byte_io.specs.Whole.{WritesAll, IsCutAt};
ghost use Rattle.byte_out.specs.Own.{IsOwnPath, file_of};
ghost use Rattle.byte_out.specs.Place.{untold, CountsOnly, ComparesOnly, PutsOnly};
ghost use Rattle.byte_place.specs.Course.{has_landed, is_owned, read_of};
ghost use Rattle.byte_place.specs.Ways.{HasPut, is_beside};
ghost use Rattle.byte_place.specs.declared.path_place.Way.TheVariants as way;

use crate::path_place::PathPlace;
use crate::systems::HostSystems;
use byte_io::{DeviceFault, WriteFault};
use byte_out::{Chunks, CompareFault, FileId, InUse, MakeFault, Place, PutFault};
use byte_system::HostSystem;
use std::alloc::{AllocError, Global};
use std::time::Duration;

/// The place of a path, whose calls are those of the system.
#[derive(Drop)]
pub struct OutPlace<'a> {
    pub(crate) place: PathPlace<'a, HostRuntime, HostSystem<'a>, HostSystems<'a>>,
}

impl<'a> OutPlace<'a> {
    /// The place of a path. Nothing is made or opened yet. If the path leads to the file `avoided`, which the command also writes,
    /// the place does not open.
    pub fn new(
        alloc: Global,
        rt: &'a HostRuntime,
        path: &'a str,
        avoided: Option<FileId>,
    ) -> Result<OutPlace<'a>, AllocError>
        ensures path { IfOk result (λ p. p.place.path ≡ path.entry) }
        ensures avoided { IfOk result (λ p. p.place.avoided ≡ avoided) }
        ensures out { IfOk result (λ p. p.place.beside.out.items ≡ file_of (option_map string_bytes p.place.led) path.entry.now) }
        ensures beside { IfOk result (λ p. IsOwnPath (file_of (option_map string_bytes p.place.led) path.entry.now) p.place.beside.beside.items) }
        ensures untold { IfOk result (λ p. ⟦<OutPlace<'a> as Place>⟧.state p ≡ untold (target_of None)) }
    {
        let source = HostSystems::new(alloc, rt);
        match PathPlace::new(alloc, rt, path, avoided, source) {
            Ok(place) => Ok(OutPlace { place }),
            Err(_) => Err(AllocError),
        }
    }

    /// Makes and locks the new file, before the old one is read; `make` then finds it. While another command has it,
    /// this one waits, at most this long, and only then is refused. Where the new file cannot be made at all, nothing is,
    /// and `make` reports it. Unless `make` takes it, the new file is removed when the place is dropped.
    pub fn reserve(&mut self, wait: Duration) -> Result<(), InUse>
        ensures state { ⟦<OutPlace<'a> as Place>⟧.state self.new ≡ ⟦<OutPlace<'a> as Place>⟧.state self.old }
        ensures path { self.new.place.path ≡ self.old.place.path }
        ensures led { self.new.place.led ≡ self.old.place.led }
        ensures out { self.new.place.beside.out ≡ self.old.place.beside.out }
        ensures beside { self.new.place.beside.beside ≡ self.old.place.beside.beside }
        ensures avoided { self.new.place.avoided ≡ self.old.place.avoided }
    {
        self.place.reserve(wait)
    }

    /// Whether the file that was made is a new one beside the old one, and not the old one itself.
    pub fn is_beside(&self) -> bool
        ensures { result ≡ is_beside self.now.place.way }
    {
        self.place.is_beside()
    }
}

impl<'a> Place for OutPlace<'a> {
    ghost state = { λ s. ⟦<PathPlace<'a, HostRuntime, HostSystem<'a>, HostSystems<'a>> as Place>⟧.state s.place };

    fn make(&mut self) -> Result<(), MakeFault>
        ensures calls { Opens result (⟦<OutPlace<'a> as Place>⟧.state self.old).sink (⟦<OutPlace<'a> as Place>⟧.state self.new).sink }
        ensures owned { OnOk result (is_beside self.new.place.way ≡ true → is_owned self.new.place.beside.at ≡ true) }
        ensures empty { OnOk result (is_beside self.new.place.way ≡ true → self.new.place.beside.taken.bytes ≡ []) }
    {
        self.place.make()
    }

    fn write(&mut self, bytes: &[u8]) -> Result<(), WriteFault>
        ensures ok { OnOk result (WritesAll bytes.now (⟦<OutPlace<'a> as Place>⟧.state self.old).sink (⟦<OutPlace<'a> as Place>⟧.state self.new).sink) }
        ensures fault { IfErr result (λ e. IsCutAt e.written bytes.now (⟦<OutPlace<'a> as Place>⟧.state self.old).sink (⟦<OutPlace<'a> as Place>⟧.state self.new).sink) }
        ensures beside { OnOk result (self.old.place.way ≡ way.Beside → self.new.place.beside.taken.bytes ≡ self.old.place.beside.taken.bytes ++ bytes.now) }
    {
        self.place.write(bytes)
    }

    fn sync(&mut self) -> Result<(), DeviceFault>
        ensures calls { CountsOnly result (⟦<OutPlace<'a> as Place>⟧.state self.old).sink (⟦<OutPlace<'a> as Place>⟧.state self.new).sink }
        ensures taken { self.new.place.beside.taken.bytes ≡ self.old.place.beside.taken.bytes }
    {
        self.place.sync()
    }

    fn compare(&mut self, read: &[u8]) -> Result<(), CompareFault>
        ensures calls { ComparesOnly result (⟦<OutPlace<'a> as Place>⟧.state self.old).sink (⟦<OutPlace<'a> as Place>⟧.state self.new).sink }
        ensures read { OnOk result (is_beside self.old.place.way ≡ true → read_of self.new.place.beside.unread self.new.place.beside.found.bytes ≡ Some read.now) }
        ensures taken { self.new.place.beside.taken.bytes ≡ self.old.place.beside.taken.bytes }
    {
        self.place.compare(read)
    }

    fn put<C: Chunks>(&mut self, read: Option<&[u8]>, content: &mut C) -> Result<(), PutFault>
        ensures calls { PutsOnly result (C.bytes content.old) (⟦<OutPlace<'a> as Place>⟧.state self.old).sink (⟦<OutPlace<'a> as Place>⟧.state self.new).sink }
        ensures put { OnOk result (HasPut self.new.place.way self.new.place.beside.at self.new.place.direct.got.bytes (C.bytes content.old)) }
        ensures read { IsSome read.entry → read_of self.new.place.beside.unread self.new.place.beside.found.bytes ≡ read_of self.old.place.beside.unread self.old.place.beside.found.bytes }
        ensures taken { OnOk result (is_beside self.new.place.way ≡ true → self.new.place.beside.taken.bytes ≡ self.old.place.beside.taken.bytes) }
    {
        self.place.put(read, content)
    }

    fn land(&mut self) -> Result<(), DeviceFault>
        ensures calls { CountsOnly result (⟦<OutPlace<'a> as Place>⟧.state self.old).sink (⟦<OutPlace<'a> as Place>⟧.state self.new).sink }
        ensures landed { OnOk result (self.old.place.way ≡ way.Beside → has_landed self.new.place.beside.at ≡ true) }
    {
        self.place.land()
    }

    fn remove(&mut self) {
        self.place.remove()
    }
}
