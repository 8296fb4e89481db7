//! Devices over the readers and writers of `std`.
ghost use Rattle.std.specs.Prelude.{◌≡◌};

use crate::device::{Intake, Outlet, ReadFault, WriteFault};
use std::io::{Read, Write};

/// An intake over a reader of `std`. Each error of the reader, of any kind, is one failure; it retries nothing. Contracts see its bytes if
/// they see the reader's.
#[derive(Drop)]
pub struct FromReader<R> {
    reader: R,
    failures: u64,
}

impl<R: Read> FromReader<R> {
    ghost use Rattle.rice_bits.specs.Devices.{reader_of, reader_failures};

    /// Returns an intake that has not failed.
    pub fn new(reader: R) -> Self
        ensures reader { reader_of result ≡ reader }
        ensures failures { reader_failures result ≡ 0 }
    {
        FromReader {
            reader,
            failures: 0,
        }
    }
}

impl<R: Read> Intake for FromReader<R> {
    ghost left = { λ s. R.remaining s.reader };

    ghost failed = { λ s. s.failures };

    fn fill(&mut self, buf: &mut [u8]) -> Result<usize, ReadFault> {
        match self.reader.read(buf) {
            Ok(count) => Ok(count),
            Err(_) => {
                self.failures += 1;
                Err(ReadFault)
            }
        }
    }

    fn failures(&self) -> u64 {
        self.failures
    }
}

/// An outlet over a writer of `std`. Each error of the writer, of any kind, is one failure, and so is a write of 0 bytes; it retries
/// nothing. Contracts see its bytes if they see the writer's.
#[derive(Drop)]
pub struct FromWriter<W> {
    writer: W,
    failures: u64,
}

impl<W: Write> FromWriter<W> {
    ghost use Rattle.rice_bits.specs.Devices.{writer_of, writer_failures};

    /// Returns an outlet that has not failed.
    pub fn new(writer: W) -> Self
        ensures writer { writer_of result ≡ writer }
        ensures failures { writer_failures result ≡ 0 }
    {
        FromWriter {
            writer,
            failures: 0,
        }
    }
}

impl<W: Write> Outlet for FromWriter<W> {
    ghost use Rattle.rice_bits.specs.OutletRoom.{known};

    ghost taken = { λ s. known (W.contents s.writer) };

    ghost failed = { λ s. s.failures };

    #[tactic(auto, using(crate::proofs::lemmas::device::OutletLemmas::known_appends, crate::proofs::lemmas::device::OutletLemmas::known_keeps))]
    fn put(&mut self, bytes: &[u8]) -> Result<usize, WriteFault> {
        match self.writer.write(bytes) {
            Ok(count) if count > 0 => Ok(count),
            _ => {
                self.failures += 1;
                Err(WriteFault)
            }
        }
    }

    fn failures(&self) -> u64 {
        self.failures
    }
}
