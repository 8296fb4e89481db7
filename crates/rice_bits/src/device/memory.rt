//! Devices over memory that work in pieces and fail at a given place, and an intake of zeros.
ghost use Rattle.std.specs.Prelude.{◌≡◌, ◌+◌, ◌-◌, ◌^◌, ◌<◌, ◌≤◌, ◌↔◌, length, drop, take, min, [], Some, IsErr, IsOk, IfOk, OnErr};
ghost use Rattle.std.specs.Io.KnownBytes.{Consumes, IsAtEnd, Keeps};
ghost use Rattle.rice_bits.specs.OutletRoom.{CountsFailure};
ghost use Rattle.rice_bits.specs.OutletRoom as outlet;

use crate::device::{Intake, Outlet, ReadFault, WriteFault};

/// An intake that gives the bytes of a slice, in pieces, up to a place where it fails.
#[derive(Drop)]
pub struct MemoryIn<'a> {
    rest: &'a [u8],
    piece: usize,
    before_failure: Option<usize>,
    failures: u64,
    ghost positive: { 0 < piece },
}

impl<'a> MemoryIn<'a> {
    ghost use Rattle.rice_bits.specs.Devices.{memory_left, memory_in_piece, memory_before_failure, memory_in_failures};

    /// Returns an intake that gives at most `piece` bytes per call. No call passes the place `fail_at`; each call that begins there fails.
    pub fn new(bytes: &'a [u8], piece: usize, fail_at: Option<usize>) -> Self
        requires { 0 < piece }
        ensures bytes { memory_left result ≡ bytes.now }
        ensures piece { memory_in_piece result ≡ piece }
        ensures place { memory_before_failure result ≡ fail_at }
        ensures failures { memory_in_failures result ≡ 0 }
    {
        MemoryIn {
            rest: bytes,
            piece,
            before_failure: fail_at,
            failures: 0,
        }
    }
}

impl Intake for MemoryIn<'_> {
    ghost use Rattle.rice_bits.specs.Devices.{memory_left, memory_in_piece, memory_before_failure, memory_in_failures, memory_gives, limit_after};

    ghost left = { λ s. Some s.rest.now };

    ghost failed = { λ s. s.failures };

    fn fill(&mut self, buf: &mut [u8]) -> Result<usize, ReadFault>
        requires room { 0 < length buf.old }
        requires countable { memory_in_failures self.old + 1 < 2 ^ 64 }
        ensures count { IfOk result (λ m. m ≤ length buf.new) }
        ensures bytes { IfOk result (λ m.
            Consumes (Some (memory_left self.old)) (Some (memory_left self.new)) (take m buf.new)) }
        ensures end { IfOk result (λ m. m ≡ 0 → IsAtEnd (Some (memory_left self.new))) }
        ensures err { OnErr result (Keeps (Some (memory_left self.old))
            (Some (memory_left self.new))) }
        ensures failures { CountsFailure (memory_in_failures self.old) (memory_in_failures self.new)
            result }

        // It fails at the place of failure, and nowhere else.
        ensures fails { IsErr result ↔ (memory_before_failure self.old ≡ Some 0) }
        ensures exact { IfOk result (λ m. m ≡ memory_gives self.old (length buf.old)) }
        ensures place { IfOk result (λ m. memory_before_failure self.new ≡
            limit_after (memory_before_failure self.old) m) }
        ensures place_kept { OnErr result (memory_before_failure self.new ≡
            memory_before_failure self.old) }
        ensures piece { memory_in_piece self.new ≡ memory_in_piece self.old }
        ensures after { IfOk result (λ m. drop m buf.new ≡ drop m buf.old) }
    {
        let mut count = buf.len().min(self.rest.len()).min(self.piece);
        if let Some(before) = self.before_failure {
            if before == 0 {
                self.failures += 1;
                return Err(ReadFault);
            }
            count = count.min(before);
            self.before_failure = Some(before - count);
        }
        let (front, rest) = self.rest.split_at(count);
        buf[..count].copy_from_slice(front);
        self.rest = rest;
        Ok(count)
    }

    fn failures(&self) -> u64 {
        self.failures
    }
}

/// An outlet that puts the bytes into a slice, in pieces, up to a place where it fails.
#[derive(Drop)]
pub struct MemoryOut<'a> {
    room: &'a mut [u8],
    at: usize,
    end: usize,
    piece: usize,
    failures: u64,
    ghost within: { at ≤ end },
    ghost fits: { end ≤ length room.now },
    ghost positive: { 0 < piece },
}

impl<'a> MemoryOut<'a> {
    ghost use Rattle.rice_bits.specs.Devices.{memory_taken, memory_state, memory_out_piece, memory_room, memory_out_failures, limited_to};

    /// Returns an outlet that takes at most `piece` bytes per call. No call passes the place `fail_at` or the end of `room`; each call that
    /// begins there fails.
    pub fn new(room: &'a mut [u8], piece: usize, fail_at: Option<usize>) -> Self
        requires { 0 < piece }
        ensures bytes { memory_taken result ≡ [] }
        ensures state { memory_state result ≡ outlet.begun room.entry.ghost_name room.old }
        ensures piece { memory_out_piece result ≡ piece }
        ensures room { memory_room result ≡ limited_to fail_at (length room.old) }
        ensures failures { memory_out_failures result ≡ 0 }
    {
        let end = match fail_at {
            Some(place) => place.min(room.len()),
            None => room.len(),
        };
        MemoryOut {
            room,
            at: 0,
            end,
            piece,
            failures: 0,
        }
    }

    /// Returns the bytes taken so far.
    pub fn written(&self) -> &[u8]
        ensures { result.now ≡ memory_taken self.now }
    {
        &self.room[..self.at]
    }
}

impl Outlet for MemoryOut<'_> {
    ghost use Rattle.rice_bits.specs.Devices.{memory_state, memory_out_piece, memory_room, memory_takes, memory_out_failures};

    ghost taken = { λ s. Some (memory_state s) };

    ghost failed = { λ s. s.failures };

    fn put(&mut self, bytes: &[u8]) -> Result<usize, WriteFault>
        requires some { 0 < length bytes.now }
        requires countable { memory_out_failures self.old + 1 < 2 ^ 64 }
        ensures count { IfOk result (λ m. (0 < m) × (m ≤ length bytes.now)) }
        ensures bytes { IfOk result (λ m.
            outlet.Appends (Some (memory_state self.old)) (Some (memory_state self.new))
            (take m bytes.now)) }
        ensures err { OnErr result (outlet.Keeps (Some (memory_state self.old))
            (Some (memory_state self.new))) }
        ensures failures { CountsFailure (memory_out_failures self.old)
            (memory_out_failures self.new) result }

        // It fails where no room is left, and nowhere else.
        ensures fails { IsErr result ↔ (memory_room self.old ≡ 0) }
        ensures exact { IfOk result (λ m. m ≡ memory_takes self.old (length bytes.now)) }
        ensures room { IfOk result (λ m. memory_room self.new + m ≡ memory_room self.old) }
        ensures room_kept { OnErr result (memory_room self.new ≡ memory_room self.old) }
        ensures piece { memory_out_piece self.new ≡ memory_out_piece self.old }
    {
        if self.at == self.end {
            self.failures += 1;
            return Err(WriteFault);
        }
        let count = bytes.len().min(self.end - self.at).min(self.piece);
        let next = self.at + count;
        self.room[self.at..next].copy_from_slice(&bytes[..count]);
        self.at = next;
        Ok(count)
    }

    fn failures(&self) -> u64 {
        self.failures
    }
}

/// An intake that gives zero bytes, and never fails.
#[derive(Drop)]
pub struct ZeroIn {
    rest: u64,
}

impl ZeroIn {
    ghost use Rattle.rice_bits.specs.Devices.{zeros_left};

    /// Returns an intake that gives `bytes` zero bytes.
    pub fn new(bytes: u64) -> Self
        ensures { zeros_left result ≡ bytes }
    {
        ZeroIn { rest: bytes }
    }
}

impl Intake for ZeroIn {
    ghost use Rattle.std.specs.Prelude.{replicate};
    ghost use Rattle.rice_bits.specs.Devices.{zeros_left};

    ghost left = { λ s. Some (replicate s.rest 0) };

    ghost failed = { λ _. 0 };

    fn fill(&mut self, buf: &mut [u8]) -> Result<usize, ReadFault>
        requires room { 0 < length buf.old }
        ensures count { IfOk result (λ m. m ≤ length buf.new) }
        ensures bytes { IfOk result (λ m. Consumes (Some (replicate (zeros_left self.old) 0))
            (Some (replicate (zeros_left self.new) 0)) (take m buf.new)) }
        ensures end { IfOk result (λ m. m ≡ 0 →
            IsAtEnd (Some (replicate (zeros_left self.new) 0))) }
        ensures never_fails { IsOk result }
        ensures exact { IfOk result (λ m. m ≡ min (length buf.old) (zeros_left self.old)) }
        ensures rest { IfOk result (λ m. zeros_left self.new + m ≡ zeros_left self.old) }
        ensures after { IfOk result (λ m. drop m buf.new ≡ drop m buf.old) }
    {
        let count = self.rest.min(buf.len() as u64) as usize;
        buf[..count].fill(0);
        self.rest -= count as u64;
        Ok(count)
    }

    fn failures(&self) -> u64 {
        0
    }
}
