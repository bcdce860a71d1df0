//! A target in memory as a place, for tests. Its files are not known.

ghost use Rattle.byte_out.specs.Place.{untold};

use crate::chunks::Chunks;
use crate::fault::{CompareFault, MakeFault, PutFault};
use crate::place::Place;
use byte_io::{DeviceFault, MemoryTarget, Sink, Target, WriteFault, write_all};

impl Place for MemoryTarget {
    ghost state = { λ s. untold (⟦<MemoryTarget as Sink>⟧.state s) };

    fn make(&mut self) -> Result<(), MakeFault> {
        match self.open() {
            Ok(()) => Ok(()),
            Err(_) => Err(MakeFault::NotOpened),
        }
    }

    fn write(&mut self, bytes: &[u8]) -> Result<(), WriteFault> {
        write_all(self, bytes)
    }

    fn sync(&mut self) -> Result<(), DeviceFault> {
        Ok(())
    }

    fn compare(&mut self, _read: &[u8]) -> Result<(), CompareFault> {
        Ok(())
    }

    fn put<C: Chunks>(&mut self, _read: Option<&[u8]>, _content: &mut C) -> Result<(), PutFault> {
        Ok(())
    }

    fn land(&mut self) -> Result<(), DeviceFault> {
        Ok(())
    }

    fn remove(&mut self) {}
}
