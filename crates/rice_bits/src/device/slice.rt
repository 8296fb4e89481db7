//! Devices over slices: an intake that never fails, and an outlet that fails only if its slice is full.
ghost use Rattle.std.specs.Prelude.{◌≡◌, ◌+◌, ◌^◌, ◌<◌, ◌≤◌, ◌↔◌, length, drop, take, min, [], Some, IsOk, IsErr, IfOk, OnErr};
ghost use Rattle.std.specs.Io.KnownBytes.{Consumes, IsAtEnd, Keeps};
ghost use Rattle.rice_bits.specs.OutletRoom.{CountsFailure};
ghost use Rattle.rice_bits.specs.OutletRoom as outlet;

use crate::device::{Intake, Outlet, ReadFault, WriteFault};

/// An intake that gives the bytes of a slice, and never fails.
#[derive(Drop)]
pub struct SliceIn<'a> {
    rest: &'a [u8],
}

impl<'a> SliceIn<'a> {
    ghost use Rattle.rice_bits.specs.Devices.{slice_left};

    /// Returns an intake that gives these bytes.
    pub fn new(bytes: &'a [u8]) -> Self
        ensures { slice_left result ≡ bytes.now }
    {
        SliceIn { rest: bytes }
    }
}

impl Intake for SliceIn<'_> {
    ghost use Rattle.rice_bits.specs.Devices.{slice_left};

    ghost left = { λ s. Some (slice_left s) };

    // It never fails. So what calls it, and tells its failures, stops at none.
    ghost failed = { λ _. 0 };

    fn fill(&mut self, buf: &mut [u8]) -> Result<usize, ReadFault>
        requires room { 0 < length buf.old }
        ensures count { IfOk result (λ m. m ≤ length buf.new) }
        ensures bytes { IfOk result (λ m.
            Consumes (Some (slice_left self.old)) (Some (slice_left self.new)) (take m buf.new)) }
        ensures end { IfOk result (λ m. m ≡ 0 → IsAtEnd (Some (slice_left self.new))) }
        ensures err { OnErr result (Keeps (Some (slice_left self.old))
            (Some (slice_left self.new))) }
        ensures failures { CountsFailure 0 0 result }
        ensures never_fails { IsOk result }
        ensures exact { IfOk result (λ m. m ≡ min (length buf.old) (length (slice_left self.old))) }
        ensures after { IfOk result (λ m. drop m buf.new ≡ drop m buf.old) }
    {
        let count = buf.len().min(self.rest.len());
        let (front, rest) = self.rest.split_at(count);
        buf[..count].copy_from_slice(front);
        self.rest = rest;
        Ok(count)
    }

    fn failures(&self) -> u64 {
        0
    }
}

/// An outlet that puts the bytes into a slice, and fails only if the slice is full.
#[derive(Drop)]
pub struct SliceOut<'a> {
    room: &'a mut [u8],
    at: usize,
    failures: u64,
    ghost within: { at ≤ length room.now },
    ghost full: { 0 < failures → at ≡ length room.now },
}

impl<'a> SliceOut<'a> {
    ghost use Rattle.rice_bits.specs.Devices.{slice_state, slice_failures};

    /// Returns an outlet that has taken nothing.
    pub fn new(room: &'a mut [u8]) -> Self
        ensures state { slice_state result ≡ outlet.begun room.entry.ghost_name room.old }
        ensures failures { slice_failures result ≡ 0 }
    {
        SliceOut {
            room,
            at: 0,
            failures: 0,
        }
    }

    /// Returns the number of bytes taken so far.
    pub fn taken(&self) -> usize
        ensures count { result ≡ length (slice_state self.now).bytes }
        // Once a call has failed, no byte of the slice is left.
        ensures full { 0 < slice_failures self.now → (slice_state self.now).rest ≡ [] }
    {
        self.at
    }
}

impl Outlet for SliceOut<'_> {
    ghost use Rattle.rice_bits.specs.Devices.{slice_state, slice_failures};

    ghost taken = { λ s. Some (slice_state s) };

    ghost failed = { λ s. s.failures };

    fn put(&mut self, bytes: &[u8]) -> Result<usize, WriteFault>
        requires some { 0 < length bytes.now }
        requires countable { slice_failures self.old + 1 < 2 ^ 64 }
        ensures count { IfOk result (λ m. (0 < m) × (m ≤ length bytes.now)) }
        ensures bytes { IfOk result (λ m.
            outlet.Appends (Some (slice_state self.old)) (Some (slice_state self.new))
            (take m bytes.now)) }
        ensures err { OnErr result (outlet.Keeps (Some (slice_state self.old))
            (Some (slice_state self.new))) }
        ensures failures { CountsFailure (slice_failures self.old) (slice_failures self.new)
            result }
        ensures fails { IsErr result ↔ ((slice_state self.old).rest ≡ []) }
        ensures exact { IfOk result (λ m.
            m ≡ min (length bytes.now) (length (slice_state self.old).rest)) }
    {
        if self.at == self.room.len() {
            self.failures += 1;
            return Err(WriteFault);
        }
        // Bytes of a known length that all fit are copied without a call.
        let room = self.room.len() - self.at;
        if bytes.len() <= room {
            let next = self.at + bytes.len();
            self.room[self.at..next].copy_from_slice(bytes);
            self.at = next;
            return Ok(bytes.len());
        }
        self.room[self.at..].copy_from_slice(&bytes[..room]);
        self.at += room;
        Ok(room)
    }

    fn failures(&self) -> u64 {
        self.failures
    }
}
