//! An outlet over a `BufWriter` of `std`.
ghost use Rattle.std.specs.Prelude.{◌≡◌, ◌+◌, ◌^◌, ◌<◌, ◌≤◌, length, take, IfOk, OnErr};
ghost use Rattle.std.specs.Io.Buffered.{writer_contents};
ghost use Rattle.rice_bits.specs.OutletRoom.{Appends, Keeps, known, CountsFailure};

use crate::device::{Outlet, WriteFault};
use std::io::{BufWriter, Write};

/// An outlet over a `BufWriter`, quick if the buffer has room. Each error of the writer, of any kind, is one failure, and so is a write of
/// 0 bytes; it retries nothing. Contracts see its bytes if they see the writer's.
#[derive(Drop)]
pub struct FromBufWriter<W: Write + Drop> {
    writer: BufWriter<W>,
    failures: u64,
}

impl<W: Write + Drop> FromBufWriter<W> {
    ghost use Rattle.rice_bits.specs.Devices.{buffered_writer, buffered_failures};

    /// Returns an outlet that has not failed.
    pub fn new(writer: BufWriter<W>) -> Self
        ensures writer { buffered_writer result ≡ writer }
        ensures failures { buffered_failures result ≡ 0 }
    {
        FromBufWriter {
            writer,
            failures: 0,
        }
    }

    /// Returns the writer.
    pub fn into_inner(self) -> BufWriter<W>
        ensures { result ≡ buffered_writer self }
    {
        self.writer
    }

    /// Writes once, and counts a failure where nothing was taken.
    #[inline(always)]
    #[tactic(auto, using(crate::proofs::lemmas::device::OutletLemmas::known_appends, crate::proofs::lemmas::device::OutletLemmas::known_keeps))]
    fn write_once(&mut self, bytes: &[u8]) -> Result<usize, WriteFault>
        requires some { 0 < length bytes.now }
        requires countable { buffered_failures self.old + 1 < 2 ^ 64 }
        ensures count { IfOk result (λ m. (0 < m) × (m ≤ length bytes.now)) }
        ensures bytes { IfOk result (λ m.
            Appends (known (writer_contents W.contents (buffered_writer self.old)))
            (known (writer_contents W.contents (buffered_writer self.new))) (take m bytes.now)) }
        ensures err { OnErr result (Keeps
            (known (writer_contents W.contents (buffered_writer self.old)))
            (known (writer_contents W.contents (buffered_writer self.new)))) }
        ensures failures { CountsFailure (buffered_failures self.old) (buffered_failures self.new)
            result }
    {
        match self.writer.write(bytes) {
            Ok(count) if count > 0 => Ok(count),
            _ => {
                self.failures += 1;
                Err(WriteFault)
            }
        }
    }

    /// Takes bytes for which the buffer may have too little room. Where it has some, it takes only as many as fill it: a write takes
    /// less time where it begins and ends with a page of the file.
    #[inline(never)]
    fn put_slowly(&mut self, bytes: &[u8]) -> Result<usize, WriteFault>
        requires some { 0 < length bytes.now }
        requires countable { buffered_failures self.old + 1 < 2 ^ 64 }
        ensures count { IfOk result (λ m. (0 < m) × (m ≤ length bytes.now)) }
        ensures bytes { IfOk result (λ m.
            Appends (known (writer_contents W.contents (buffered_writer self.old)))
            (known (writer_contents W.contents (buffered_writer self.new))) (take m bytes.now)) }
        ensures err { OnErr result (Keeps
            (known (writer_contents W.contents (buffered_writer self.old)))
            (known (writer_contents W.contents (buffered_writer self.new)))) }
        ensures failures { CountsFailure (buffered_failures self.old) (buffered_failures self.new)
            result }
    {
        let room = self.writer.capacity() - self.writer.buffer().len();
        if 0 < room && room < bytes.len() {
            return self.write_once(&bytes[..room]);
        }
        self.write_once(bytes)
    }
}

impl<W: Write + Drop> Outlet for FromBufWriter<W> {
    ghost taken = { λ s. known (writer_contents W.contents s.writer) };

    ghost failed = { λ s. s.failures };

    #[inline(always)]
    fn put(&mut self, bytes: &[u8]) -> Result<usize, WriteFault> {
        // With this known, the write is a copy, and nothing else.
        if bytes.len() < self.writer.capacity() - self.writer.buffer().len() {
            return self.write_once(bytes);
        }
        self.put_slowly(bytes)
    }

    fn failures(&self) -> u64 {
        self.failures
    }
}
