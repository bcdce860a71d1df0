//! What the place of a path makes and opens: a new file, or a device.

ghost use Rattle.std.specs.Prelude.{◌≡◌, [], Some, true, false, IfOk, OnOk, option_map};
ghost use Rattle.byte_place.specs.Course.{has_landed, is_owned};
ghost use Rattle.byte_place.specs.Ways.{is_beside};

use crate::path_place::{PathPlace, Way, file_of};
use crate::progress::ReserveFault;
use crate::systems::SystemSource;
use crate::waiting::{reserve_in, reserve_now};
use crate::way::{Kind, kind_at};
use byte_out::{FileId, InUse, MakeFault, Place};
use byte_system::System;
use std::rt::{Clock, Files};
use std::time::Duration;

impl<'a, R: Files, S: System + Drop, M: SystemSource<S> + Drop> PathPlace<'a, R, S, M> {
    /// Makes and locks the new file, before the old one is read; `make` then finds it. While another command has it,
    /// this one waits, at most this long, and only then is refused. Where the new file cannot be made at all, nothing is,
    /// and `make` reports it. Unless `make` takes it, the new file is removed when the place is dropped.
    pub fn reserve(&mut self, wait: Duration) -> Result<(), InUse>
    where
        R: Clock,
        ensures state { ⟦<PathPlace<'a, R, S, M> as Place>⟧.state self.new ≡ ⟦<PathPlace<'a, R, S, M> as Place>⟧.state self.old }
        ensures path { self.new.path ≡ self.old.path }
        ensures led { self.new.led ≡ self.old.led }
        ensures out { self.new.beside.out ≡ self.old.beside.out }
        ensures beside { self.new.beside.beside ≡ self.old.beside.beside }
        ensures avoided { self.new.avoided ≡ self.old.avoided }
    {
        if self.way != Way::Closed || self.is_closed() {
            return Ok(());
        }
        let real = file_of(&self.led, self.path);
        match kind_at(self.rt, real) {
            Kind::Plain | Kind::Nothing => {}
            Kind::Other | Kind::Unknown => return Ok(()),
        }
        match reserve_in(self.rt, &self.source, &mut self.beside, wait) {
            Ok(()) => Ok(()),
            Err(ReserveFault::Exists) => Err(InUse),
            Err(ReserveFault::NotOpened) => Ok(()),
        }
    }

    /// Whether the file that was made is a new one beside the old one, and not the old one itself.
    pub fn is_beside(&self) -> bool
        ensures { result ≡ is_beside self.now.way }
    {
        match self.way {
            Way::Beside => true,
            _ => false,
        }
    }

    // Whether nobody knows where the path leads, or it leads to the file that is avoided.
    fn is_closed(&self) -> bool {
        let real = file_of(&self.led, self.path);
        self.is_lost || self.avoided.is_some() && self.avoided == FileId::at(self.rt, real)
    }

    /// Makes the new file, or opens the device.
    pub(crate) fn opens(&mut self) -> Result<Way, MakeFault>
        ensures state { ⟦<PathPlace<'a, R, S, M> as Place>⟧.state self.new ≡ ⟦<PathPlace<'a, R, S, M> as Place>⟧.state self.old }
        ensures owned { IfOk result (λ way. is_beside way ≡ true → is_owned self.new.beside.at ≡ true) }
        ensures empty { IfOk result (λ way. is_beside way ≡ true → self.new.beside.taken.bytes ≡ []) }
    {
        if self.is_closed() {
            return Err(MakeFault::NotOpened);
        }
        match kind_at(self.rt, file_of(&self.led, self.path)) {
            Kind::Unknown => return Err(MakeFault::NotOpened),
            Kind::Other => return self.opens_direct(),
            Kind::Plain | Kind::Nothing => {}
        }
        self.renews();
        match reserve_now(&self.source, &mut self.beside) {
            Ok(()) => {}
            Err(ReserveFault::Exists) => return Err(MakeFault::Exists),
            Err(ReserveFault::NotOpened) => return Err(MakeFault::NotOpened),
        }
        match self.beside.make() {
            Ok(()) => Ok(Way::Beside),
            Err(fault) => Err(fault),
        }
    }

    /// Once the new file has its name, it is closed, so that its lock keeps nobody waiting, and another one can be made, by a process of
    /// its own.
    pub(crate) fn renews(&mut self)
        ensures state { ⟦<PathPlace<'a, R, S, M> as Place>⟧.state self.new ≡ ⟦<PathPlace<'a, R, S, M> as Place>⟧.state self.old }
        ensures landed { has_landed self.old.beside.at ≡ true → has_landed self.new.beside.at ≡ true }
    {
        if !self.beside.is_over() {
            return;
        }
        if let Ok(system) = self.source.system() {
            self.beside.restart(system);
        }
    }

    fn opens_direct(&mut self) -> Result<Way, MakeFault>
        ensures state { ⟦<PathPlace<'a, R, S, M> as Place>⟧.state self.new ≡ ⟦<PathPlace<'a, R, S, M> as Place>⟧.state self.old }
        ensures old { IfOk result (λ way. is_beside way ≡ false) }
        ensures beside { self.new.beside ≡ self.old.beside }
    {
        match self.direct.make() {
            Ok(()) => Ok(Way::Direct),
            Err(_) => Err(MakeFault::NotOpened),
        }
    }
}
