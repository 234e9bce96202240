//! Sources and sinks over memory, for tests and for callers that need no device. Which calls fail is
//! told at the start.

ghost use Rattle.std.specs.Prelude.{◌≡◌, ◌-◌, ◌<◌, ◌≤◌, ◌||◌, ◌++◌, min, [], length, take, drop, nat_eq, Some, IfOk, OnErr, is_err, vec_capacity};
ghost use Rattle.port_io.specs.Devices.{next_count};
ghost use Rattle.port_io.specs.Memory.{is_listed};

use crate::devices::{Failed, Sink, Source};
use std::marker::Model;

/// A source over a list of bytes.
#[derive(Drop)]
pub struct MemSource {
    bytes: Vec<u8>,
    at: usize,
    piece: usize,
    fails: Vec<u64>,
    reads: u64,
    faults: u64,
}

impl Model for MemSource {
    ghost use Rattle.std.specs.Prelude.{◌<◌, ◌≤◌, drop, vec_len};
    ghost use Rattle.port_io.specs.Memory.{MemoryInput};

    ghost Value = { MemoryInput };

    ghost view = { λ s. record { bytes = drop s.at s.bytes.items; piece = s.piece; fails = s.fails.items; reads = s.reads; faults = s.faults } };

    ghost invariant = { λ s. (s.at ≤ vec_len s.bytes) × (0 < s.piece) };
}

impl MemSource {
    /// Gives at most `piece` bytes a read. The reads with the numbers in `fails`, counted from 0,
    /// fail.
    pub fn new(bytes: Vec<u8>, piece: usize, fails: Vec<u64>) -> MemSource
        requires { 0 < piece }
        ensures { result ≡ record { bytes = bytes.items; piece = piece; fails = fails.items; reads = 0; faults = 0 } }
    {
        MemSource {
            bytes,
            at: 0,
            piece,
            fails,
            reads: 0,
            faults: 0,
        }
    }
}

impl Source for MemSource {
    ghost left = { λ s. Some s.bytes };

    ghost faults = { λ s. s.faults };

    fn read(&mut self, buf: &mut [u8]) -> Result<usize, Failed>
        requires { 0 < length buf.old }
        ensures fails { is_err result ≡ is_listed self.old.reads self.old.fails }
        ensures count { IfOk result (λ n. n ≡ min (min self.old.piece (length buf.old)) (length self.old.bytes)) }
        ensures bytes { IfOk result (λ n. take n buf.new ≡ take n self.old.bytes) }
        ensures end { IfOk result (λ n. n ≡ 0 → self.old.bytes ≡ []) }
        ensures never_falls { self.old.faults ≤ self.new.faults }
        ensures after { IfOk result (λ n. self.new ≡ record self.old { bytes = drop n self.old.bytes; reads = next_count self.old.reads }) }
        ensures after_fault { OnErr result (self.new ≡ record self.old { reads = next_count self.old.reads; faults = next_count self.old.faults }) }
    {
        let read = self.reads;
        self.reads = read.saturating_add(1);
        if self.fails.contains(&read) {
            self.faults = self.faults.saturating_add(1);
            return Err(Failed);
        }
        let n = self.piece.min(buf.len()).min(self.bytes.len() - self.at);
        buf[..n].copy_from_slice(&self.bytes.as_slice()[self.at..self.at + n]);
        self.at += n;
        Ok(n)
    }
}

/// A source over a list of bytes that never fails.
#[derive(Drop)]
pub struct SureSource {
    bytes: Vec<u8>,
    at: usize,
}

impl Model for SureSource {
    ghost use Rattle.std.specs.Prelude.{◌≤◌, ℕ, List, drop, vec_len};

    ghost Value = { List ℕ };

    ghost view = { λ s. drop s.at s.bytes.items };

    ghost invariant = { λ s. s.at ≤ vec_len s.bytes };
}

impl SureSource {
    /// Gives all that a read has room for.
    pub fn new(bytes: Vec<u8>) -> SureSource
        ensures { result ≡ bytes.items }
    {
        SureSource { bytes, at: 0 }
    }
}

impl Source for SureSource {
    ghost left = { λ s. Some s };

    ghost faults = { λ _. 0 };

    fn read(&mut self, buf: &mut [u8]) -> Result<usize, Failed>
        requires { 0 < length buf.old }
        ensures answer { result ≡ Ok (min (length buf.old) (length self.old)) }
        ensures bytes { IfOk result (λ n. take n buf.new ≡ take n self.old) }
        ensures after { IfOk result (λ n. self.new ≡ drop n self.old) }
    {
        let n = buf.len().min(self.bytes.len() - self.at);
        buf[..n].copy_from_slice(&self.bytes.as_slice()[self.at..self.at + n]);
        self.at += n;
        Ok(n)
    }
}

/// A sink into a list whose room was taken before. It takes no memory.
#[derive(Drop)]
pub struct MemSink {
    bytes: Vec<u8>,
    room: usize,
    piece: usize,
    fails: Vec<u64>,
    writes: u64,
    faults: u64,
}

impl Model for MemSink {
    ghost use Rattle.std.specs.Prelude.{◌+◌, ◌<◌, ◌≤◌, vec_len, vec_capacity};
    ghost use Rattle.port_io.specs.Memory.{MemoryOutput};

    ghost Value = { MemoryOutput };

    ghost view = { λ s. record { bytes = s.bytes.items; room = s.room; piece = s.piece; fails = s.fails.items; writes = s.writes; faults = s.faults } };

    ghost invariant = { λ s. (vec_len s.bytes + s.room ≤ vec_capacity s.bytes) × (0 < s.piece) };
}

impl MemSink {
    /// Writes into `room`, which is empty, no more than it has capacity for. Takes at most `piece`
    /// bytes a write. The writes with the numbers in `fails`, counted from 0, fail, and so does one
    /// for which no room is left.
    pub fn new(room: Vec<u8>, piece: usize, fails: Vec<u64>) -> MemSink
        requires empty { room.items ≡ [] }
        requires some { 0 < piece }
        ensures { result ≡ record { bytes = []; room = vec_capacity room; piece = piece; fails = fails.items; writes = 0; faults = 0 } }
    {
        MemSink {
            room: room.capacity(),
            bytes: room,
            piece,
            fails,
            writes: 0,
            faults: 0,
        }
    }

    /// What was written so far.
    pub fn written(&self) -> &[u8]
        ensures { result.now ≡ self.now.bytes }
    {
        self.bytes.as_slice()
    }
}

impl Sink for MemSink {
    ghost written = { λ s. Some s.bytes };

    ghost faults = { λ s. s.faults };

    fn write(&mut self, piece: &[u8]) -> Result<usize, Failed>
        requires { 0 < length piece.now }
        ensures fails { is_err result ≡ (is_listed self.old.writes self.old.fails || nat_eq self.old.room 0) }
        ensures count { IfOk result (λ n. n ≡ min (min self.old.piece (length piece.now)) self.old.room) }
        ensures some { IfOk result (λ n. 0 < n) }
        ensures never_falls { self.old.faults ≤ self.new.faults }
        ensures after { IfOk result (λ n. self.new ≡
            record self.old { bytes = self.old.bytes ++ take n piece.now; room = self.old.room - n; writes = next_count self.old.writes }) }
        ensures after_fault { OnErr result (self.new ≡ record self.old { writes = next_count self.old.writes; faults = next_count self.old.faults }) }
    {
        let write = self.writes;
        self.writes = write.saturating_add(1);
        if self.room == 0 || self.fails.contains(&write) {
            self.faults = self.faults.saturating_add(1);
            return Err(Failed);
        }
        let n = self.piece.min(piece.len()).min(self.room);
        let appended = self.bytes.extend_from_slice(&piece[..n]);
        let Ok(()) = appended else { unreachable!() };
        self.room -= n;
        Ok(n)
    }
}
