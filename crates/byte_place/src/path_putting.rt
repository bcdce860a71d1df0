//! How the place of a path compares the old file and puts the bytes in its place.

ghost use Rattle.std.specs.Prelude.{◌≡◌, [], Some, true, false, IsSome, IfSome, IfOk, IfErr, OnOk, option_map};
ghost use Rattle.byte_system.specs.System.{calls};
ghost use Rattle.byte_place.specs.Course.{read_of};
ghost use Rattle.byte_place.specs.Ways.{FitsIn, HasPut, is_beside};
ghost use Rattle.byte_place.specs.declared.path_place.Way.TheVariants as how;
ghost use Rattle.byte_place.specs.declared.progress.At.TheVariants as at;

use crate::path_place::{PathPlace, Way};
use crate::systems::SystemSource;
use byte_out::{Chunks, CompareFault, Place, PutFault};
use byte_system::System;
use std::rt::Files;

// Why nothing was put: of all the bytes, of which there are this many, at most all were written.
fn fitting(fault: PutFault, whole: usize) -> PutFault
    ensures { FitsIn result whole }
{
    match fault {
        PutFault::NotOpened => PutFault::NotOpened,
        PutFault::Changed => PutFault::Changed,
        PutFault::WriteFailed(count) => PutFault::WriteFailed(count.min(whole)),
    }
}

impl<'a, R: Files, S: System + Drop, M: SystemSource<S> + Drop> PathPlace<'a, R, S, M> {
    /// Compares the old file with these bytes.
    pub(crate) fn compares(&mut self, way: Way, read: &[u8]) -> Result<(), CompareFault>
        ensures state { ⟦<PathPlace<'a, R, S, M> as Place>⟧.state self.new ≡ ⟦<PathPlace<'a, R, S, M> as Place>⟧.state self.old }
        ensures read { OnOk result (is_beside way ≡ true → read_of self.new.beside.unread self.new.beside.found.bytes ≡ Some read.now) }
        ensures beside { is_beside way ≡ false → self.new.beside ≡ self.old.beside }
        ensures taken { self.new.beside.taken.bytes ≡ self.old.beside.taken.bytes }
        ensures way { self.new.way ≡ self.old.way }
    {
        match way {
            Way::Closed => Err(CompareFault::Changed),
            Way::Beside => self.beside.compare(read),
            Way::Direct => self.direct.compare(read),
        }
    }

    // Puts the new file in the place of the old one.
    fn puts_beside<C: Chunks>(
        &mut self,
        read: Option<&[u8]>,
        content: &mut C,
        whole: usize,
    ) -> Result<(), PutFault>
        ensures state { ⟦<PathPlace<'a, R, S, M> as Place>⟧.state self.new ≡ ⟦<PathPlace<'a, R, S, M> as Place>⟧.state self.old }
        ensures fits { IfErr result (λ f. FitsIn f whole) }
        ensures put { OnOk result (self.new.beside.at ≡ at.Put) }
        ensures read { IsSome read.entry → read_of self.new.beside.unread self.new.beside.found.bytes ≡ read_of self.old.beside.unread self.old.beside.found.bytes }
        ensures taken { OnOk result (self.new.beside.taken.bytes ≡ self.old.beside.taken.bytes) }
        ensures way { self.new.way ≡ self.old.way }
        ensures bytes { C.bytes content.new ≡ C.bytes content.old }
    {
        match self.beside.put(read, content) {
            Ok(()) => Ok(()),
            Err(fault) => Err(fitting(fault, whole)),
        }
    }

    /// Puts the bytes in the place of the old ones.
    pub(crate) fn puts<C: Chunks>(
        &mut self,
        way: Way,
        read: Option<&[u8]>,
        content: &mut C,
        whole: usize,
    ) -> Result<(), PutFault>
        ensures state { ⟦<PathPlace<'a, R, S, M> as Place>⟧.state self.new ≡ ⟦<PathPlace<'a, R, S, M> as Place>⟧.state self.old }
        ensures fits { IfErr result (λ f. FitsIn f whole) }
        ensures put { OnOk result (HasPut way self.new.beside.at self.new.direct.got.bytes (C.bytes content.old)) }
        ensures read { IsSome read.entry → read_of self.new.beside.unread self.new.beside.found.bytes ≡ read_of self.old.beside.unread self.old.beside.found.bytes }
        ensures taken { OnOk result (is_beside way ≡ true → self.new.beside.taken.bytes ≡ self.old.beside.taken.bytes) }
        ensures way { self.new.way ≡ self.old.way }
        ensures bytes { is_beside way ≡ true → C.bytes content.new ≡ C.bytes content.old }
    {
        match way {
            Way::Closed => Err(PutFault::NotOpened),
            Way::Beside => self.puts_beside(read, content, whole),
            Way::Direct => match self.direct.put(read, content) {
                Ok(()) => Ok(()),
                Err(fault) => Err(fitting(fault, whole)),
            },
        }
    }
}
