//! A source and a sink over memory, which fail at listed calls.
ghost use Rattle.std.specs.Prelude.{◌≡◌, ◌≤◌, ◌<◌, ◌↔◌, [], true, false, Some, IfOk, OnOk, OnErr, IsErr, Contains, length, take};
ghost use Rattle.std.specs.Io.{ReadsAtMost};
ghost use Rattle.std.specs.Io.KnownBytes.{ReadConsumes, Appends};
ghost use Rattle.glue_ends.specs.Causes.{AppendsPrefix};
ghost use Rattle.values.specs.Count.{Rose};
ghost use Rattle.glue_ends.specs.Memory.{next};

use crate::sink::{Sink, WriteFault};
use crate::source::{ReadFailed, Source};
use std::alloc::Global;
use std::marker::Model;

// The calls of an end: the numbers of those that fail, and how many there were and failed so far.
#[derive(Drop)]
struct Calls {
    fails: Vec<u64>,
    made: u64,
    faults: u64,
}

impl Calls {
    // None was made yet.
    fn new(fails: Vec<u64>) -> Calls
        ensures { result ≡ record { fails = fails; made = 0; faults = 0 } }
    {
        Calls {
            fails,
            made: 0,
            faults: 0,
        }
    }

    // Counts a call. The answer is whether it fails.
    fn next_fails(&mut self) -> bool
        ensures made { self.new.made ≡ next self.old.made }
        ensures listed { result ≡ true ↔ Contains self.old.fails.items self.new.made }
        ensures same { self.new.fails ≡ self.old.fails }
        ensures rose { result ≡ true → Rose self.old.faults self.new.faults }
        ensures kept { result ≡ false → self.new.faults ≡ self.old.faults }
        ensures later { self.old.faults ≤ self.new.faults }
    {
        self.made = self.made.saturating_add(1);
        let fails = self.fails.contains(&self.made);
        if fails {
            self.faults = self.faults.saturating_add(1);
        }
        fails
    }
}

/// Gives the bytes of a list, at most `piece` of them a call.
#[derive(Drop)]
pub struct MemSource {
    bytes: Vec<u8>,
    place: usize,
    piece: usize,
    calls: Calls,
}

impl Model for MemSource {
    ghost use Rattle.std.specs.Prelude.{◌≤◌, drop, length};
    ghost use Rattle.glue_ends.specs.Memory.{SourceState};

    ghost Value = { SourceState };

    ghost view = { λ s. record { left = drop s.place s.bytes.items; piece = s.piece; fails = s.calls.fails.items; calls = s.calls.made; faults = s.calls.faults } };

    ghost invariant = { λ s. (s.place ≤ length s.bytes.items) × (1 ≤ s.piece) };
}

impl MemSource {
    /// The calls with the numbers in `fails`, counted from 1, fail. The count stops at the last `u64`.
    pub fn new(bytes: Vec<u8>, piece: usize, fails: Vec<u64>) -> MemSource
        requires { 1 ≤ piece }
        ensures { result ≡ record { left = bytes.items; piece = piece; fails = fails.items; calls = 0; faults = 0 } }
    {
        MemSource {
            bytes,
            place: 0,
            piece,
            calls: Calls::new(fails),
        }
    }
}

// Copies the front of `rest`, at most `piece` bytes.
fn give(rest: &[u8], piece: usize, buf: &mut [u8]) -> usize
    requires { 1 ≤ piece }
    ensures given { result ≤ length rest.now }
    ensures room { result ≤ length buf.new }
    ensures short { result ≤ piece }
    ensures bytes { take result buf.new ≡ take result rest.now }
    ensures end { result ≡ 0 → 0 < length buf.new → rest.now ≡ [] }
{
    let count = rest.len().min(piece).min(buf.len());
    buf[..count].copy_from_slice(&rest[..count]);
    count
}

impl Source for MemSource {
    ghost left = { λ s. Some s.left };

    ghost faults = { λ s. s.faults };

    fn read(&mut self, buf: &mut [u8]) -> Result<usize, ReadFailed>
        ensures bound { ReadsAtMost result buf.new }
        ensures bytes { ReadConsumes (Some self.old.left) (Some self.new.left) result buf.new }
        ensures later { self.old.faults ≤ self.new.faults }
        ensures failed { OnErr result (Rose self.old.faults self.new.faults) }
        ensures kept { IfOk result (λ _. self.new.faults ≡ self.old.faults) }

        // It fails exactly at the listed calls, and gives at most a piece.
        ensures calls { self.new.calls ≡ next self.old.calls }
        ensures fails { self.new.fails ≡ self.old.fails }
        ensures listed { IsErr result ↔ Contains self.old.fails self.new.calls }
        ensures piece { IfOk result (λ n. n ≤ self.old.piece) }
        ensures same { self.new.piece ≡ self.old.piece }
    {
        if self.calls.next_fails() {
            return Err(ReadFailed);
        }
        let (_, rest) = self.bytes.split_at(self.place);
        let count = give(rest, self.piece, buf);
        self.place += count;
        Ok(count)
    }
}

/// Keeps the bytes that it takes. At a failing call, and where it finds no memory, it takes nothing.
#[derive(Drop)]
pub struct MemSink {
    bytes: Vec<u8>,
    calls: Calls,
}

impl Model for MemSink {
    ghost use Rattle.glue_ends.specs.Memory.{SinkState};

    ghost Value = { SinkState };

    ghost view = { λ s. record { taken = s.bytes.items; fails = s.calls.fails.items; calls = s.calls.made; faults = s.calls.faults } };
}

impl MemSink {
    /// The calls with the numbers in `fails`, counted from 1, fail. The count stops at the last `u64`.
    pub fn new(alloc: Global, fails: Vec<u64>) -> MemSink
        ensures { result ≡ record { taken = []; fails = fails.items; calls = 0; faults = 0 } }
    {
        MemSink {
            bytes: Vec::new(alloc),
            calls: Calls::new(fails),
        }
    }

    /// The bytes that were taken so far.
    pub fn taken(&self) -> &[u8]
        ensures { result.now ≡ self.now.taken }
    {
        self.bytes.as_slice()
    }
}

impl Sink for MemSink {
    ghost taken = { λ s. Some s.taken };

    ghost faults = { λ s. s.faults };

    fn write_all(&mut self, bytes: &[u8]) -> Result<(), WriteFault>
        ensures ok { OnOk result (Appends (Some self.old.taken) (Some self.new.taken) bytes.now) }
        ensures prefix { AppendsPrefix (Some self.old.taken) (Some self.new.taken) bytes.now }
        ensures later { self.old.faults ≤ self.new.faults }
        ensures failed { result ≡ Err WriteFault.Failed → Rose self.old.faults self.new.faults }
        ensures kept { OnOk result (self.new.faults ≡ self.old.faults) }

        // It takes nothing at a refusal, and fails exactly at the listed calls.
        ensures nothing { OnErr result (self.new.taken ≡ self.old.taken) }
        ensures calls { self.new.calls ≡ next self.old.calls }
        ensures fails { self.new.fails ≡ self.old.fails }
        ensures listed { result ≡ Err WriteFault.Failed ↔ Contains self.old.fails self.new.calls }
    {
        if self.calls.next_fails() {
            return Err(WriteFault::Failed);
        }
        self.bytes.extend_from_slice(bytes)?;
        Ok(())
    }
}
