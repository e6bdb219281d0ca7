//! Sources and sinks in memory, for tests and for whoever has the text at hand.
ghost use Rattle.std.specs.Prelude.{◌≡◌, ℕ, ◌+◌, ◌-◌, ◌^◌, ◌<◌, ◌≤◌, ◌↔◌, ◌⊎◌, List, [], Some, Option};
ghost use Rattle.std.specs.Prelude.{length, take, drop, min, Contains, IsTrue, IsErr, IsOk, IfOk, OnOk};
ghost use Rattle.std.specs.Prelude.{OnErr, vec_len, vec_capacity};
ghost use Rattle.std.specs.Io.KnownBytes.{prepend_known, append_known, IsAtEnd};
ghost use Rattle.byte_streams.specs.Streams.{Rose, last_count};

use crate::sinks::{Sink, SinkFault};
use crate::sources::{Source, SourceFault};
use std::alloc::{AllocError, Global};
use std::marker::Model;

/// A source over bytes in memory that gives at most `each` of them in a read, and whose reads with
/// the listed numbers fail, counted from 1.
#[derive(Drop)]
pub struct MemorySource {
    bytes: Vec<u8>,
    at: usize,
    each: usize,
    failing: Vec<u64>,
    reads: u64,
    faults: u64,
}

impl Model for MemorySource {
    ghost use Rattle.std.specs.Prelude.{◌≤◌, ◌<◌, drop, vec_len};
    ghost use Rattle.byte_streams.specs.Memory.{SourceState};

    ghost Value = { SourceState };

    ghost view = { λ s. record {
      left = drop s.at s.bytes.items;
      each = s.each;
      failing = s.failing.items;
      reads = s.reads;
      faults = s.faults;
    } };

    ghost invariant = { λ s. (s.at ≤ vec_len s.bytes) × (0 < s.each) × (s.faults ≤ s.reads) };
}

impl MemorySource {
    /// A source that gives these bytes, at most `each` in a read.
    pub fn new(bytes: Vec<u8>, each: usize, failing: Vec<u64>) -> MemorySource
        requires { 1 ≤ each }
        ensures left { result.left ≡ bytes.items }
        ensures each { result.each ≡ each }
        ensures failing { result.failing ≡ failing.items }
        ensures unread { result.reads ≡ 0 }
        ensures faultless { result.faults ≡ 0 }
    {
        MemorySource {
            bytes,
            at: 0,
            each,
            failing,
            reads: 0,
            faults: 0,
        }
    }
}

impl Source for MemorySource {
    ghost left = { λ s. Some s.left };

    ghost faults = { λ s. s.faults };

    fn read(&mut self, into: &mut [u8]) -> Result<usize, SourceFault>
        ensures bound { IfOk result (λ count. count ≤ length into.new) }
        ensures given { IfOk result
            (λ count. Some self.old.left ≡ prepend_known (take count into.new)
            (Some self.new.left)) }
        ensures end { IfOk result (λ count. count ≡ 0 → 0 < length into.new
            → IsAtEnd (Some self.new.left)) }
        ensures kept { OnErr result (Some self.new.left ≡ Some self.old.left) }
        ensures counted { self.old.faults ≤ self.new.faults }
        ensures fault { OnErr result (Rose self.old.faults self.new.faults) }

        // The reads that are listed fail, and no others.
        ensures listed { IsErr result ↔ Contains self.old.failing (self.old.reads + 1) }
        ensures count { IfOk result
            (λ count. count ≡ min self.old.each (min (length into.old) (length self.old.left))) }
        ensures ok { OnOk result (self.new.faults ≡ self.old.faults) }
        ensures err { OnErr result (self.new.faults ≡ self.old.faults + 1) }
        ensures reads { self.new.reads ≡ min (self.old.reads + 1) last_count }
        ensures each { self.new.each ≡ self.old.each }
        ensures failing { self.new.failing ≡ self.old.failing }
    {
        let is_listed = is_next_listed(&self.failing, self.reads);
        self.reads = self.reads.saturating_add(1);
        if is_listed {
            self.faults += 1;
            return Err(SourceFault);
        }
        let count = copy_front(&self.bytes[self.at..], into, self.each);
        self.at += count;
        Ok(count)
    }
}

/// A source over bytes in memory that never fails.
#[derive(Drop)]
pub struct SureSource {
    bytes: Vec<u8>,
    at: usize,
}

impl Model for SureSource {
    ghost use Rattle.std.specs.Prelude.{ℕ, List, ◌≤◌, drop, vec_len};

    ghost Value = { List ℕ };

    ghost view = { λ s. drop s.at s.bytes.items };

    ghost invariant = { λ s. s.at ≤ vec_len s.bytes };
}

impl SureSource {
    /// A source that gives these bytes.
    pub fn new(bytes: Vec<u8>) -> SureSource
        ensures { result ≡ bytes.items }
    {
        SureSource { bytes, at: 0 }
    }
}

impl Source for SureSource {
    ghost left = { λ s. Some s };

    ghost faults = { λ _. 0 };

    fn read(&mut self, into: &mut [u8]) -> Result<usize, SourceFault>
        ensures bound { IfOk result (λ count. count ≤ length into.new) }
        ensures given { IfOk result
            (λ count. Some self.old ≡ prepend_known (take count into.new) (Some self.new)) }
        ensures end { IfOk result (λ count. count ≡ 0 → 0 < length into.new
            → IsAtEnd (Some self.new)) }
        ensures sure { IsOk result }
        ensures count { IfOk result (λ count. count ≡ min (length into.old) (length self.old)) }
    {
        let each = into.len();
        let count = copy_front(&self.bytes[self.at..], into, each);
        self.at += count;
        Ok(count)
    }
}

/// A sink in memory with room for this many bytes, which takes at most `each` of them in a write, and
/// whose writes with the listed numbers fail, counted from 1.
#[derive(Drop)]
pub struct MemorySink {
    bytes: Vec<u8>,
    room: usize,
    each: usize,
    failing: Vec<u64>,
    writes: u64,
    faults: u64,
}

impl Model for MemorySink {
    ghost use Rattle.std.specs.Prelude.{◌+◌, ◌≤◌, ◌<◌, vec_len, vec_capacity};
    ghost use Rattle.byte_streams.specs.Memory.{SinkState};

    ghost Value = { SinkState };

    ghost view = { λ s. record {
      taken = s.bytes.items;
      room = s.room;
      each = s.each;
      failing = s.failing.items;
      writes = s.writes;
      faults = s.faults;
    } };

    ghost invariant = { λ s. (vec_len s.bytes + s.room ≤ vec_capacity s.bytes) × (0 < s.each) };
}

impl MemorySink {
    /// A sink that takes up to `room` bytes, at most `each` in a write. The memory for all of them is
    /// taken here, and the only error is that it runs out.
    pub fn new(
        alloc: Global,
        room: usize,
        each: usize,
        failing: Vec<u64>,
    ) -> Result<MemorySink, AllocError>
        requires { 1 ≤ each }
        ensures empty { IfOk result (λ sink. sink.taken ≡ []) }
        ensures room { IfOk result (λ sink. sink.room ≡ room) }
        ensures each { IfOk result (λ sink. sink.each ≡ each) }
        ensures failing { IfOk result (λ sink. sink.failing ≡ failing.items) }
        ensures unwritten { IfOk result (λ sink. sink.writes ≡ 0) }
        ensures faultless { IfOk result (λ sink. sink.faults ≡ 0) }
    {
        let bytes = Vec::with_capacity(alloc, room)?;
        Ok(MemorySink {
            bytes,
            room,
            each,
            failing,
            writes: 0,
            faults: 0,
        })
    }

    /// The bytes that it has taken.
    pub fn taken(&self) -> &[u8]
        ensures { result.now ≡ self.now.taken }
    {
        &self.bytes
    }
}

impl Sink for MemorySink {
    ghost taken = { λ s. Some s.taken };

    ghost faults = { λ s. s.faults };

    fn write(&mut self, piece: &[u8]) -> Result<usize, SinkFault>
        ensures bound { IfOk result (λ count. count ≤ length piece.now) }
        ensures progress { IfOk result (λ count. 0 < length piece.now → 0 < count) }
        ensures gained { IfOk result
            (λ count. Some self.new.taken ≡ append_known (Some self.old.taken)
            (take count piece.now)) }
        ensures kept { OnErr result (Some self.new.taken ≡ Some self.old.taken) }
        ensures counted { self.old.faults ≤ self.new.faults }
        ensures fault { OnErr result (Rose self.old.faults self.new.faults) }

        // The writes that are listed fail, those of a piece that finds no room, and no others.
        ensures fails { IsErr result
            ↔ (Contains self.old.failing (self.old.writes + 1)
            ⊎ ((0 < length piece.now) × (self.old.room ≡ 0))) }
        ensures count { IfOk result
            (λ count. count ≡ min (length piece.now) (min self.old.each self.old.room)) }
        ensures ok { IfOk result (λ count. (self.new.room + count ≡ self.old.room)
            × (self.new.faults ≡ self.old.faults)) }
        ensures err { OnErr result ((self.new.room ≡ self.old.room)
            × (self.new.faults ≡ min (self.old.faults + 1) last_count)) }
        ensures writes { self.new.writes ≡ min (self.old.writes + 1) last_count }
        ensures each { self.new.each ≡ self.old.each }
        ensures failing { self.new.failing ≡ self.old.failing }
    {
        let is_listed = is_next_listed(&self.failing, self.writes);
        self.writes = self.writes.saturating_add(1);
        if is_listed || (self.room == 0 && !piece.is_empty()) {
            self.faults = self.faults.saturating_add(1);
            return Err(SinkFault);
        }
        let count = piece.len().min(self.each.min(self.room));
        let Ok(()) = self.bytes.extend_from_slice(&piece[..count]) else {
            unreachable!();
        };
        self.room -= count;
        Ok(count)
    }
}

/// A sink in memory with room for this many bytes, which takes whole pieces as far as its room goes and
/// fails only where there is none.
#[derive(Drop)]
pub struct SureSink {
    bytes: Vec<u8>,
    room: usize,
    faults: u64,
}

impl Model for SureSink {
    ghost use Rattle.std.specs.Prelude.{◌+◌, ◌≤◌, vec_len, vec_capacity};
    ghost use Rattle.byte_streams.specs.Memory.{SureSinkState};

    ghost Value = { SureSinkState };

    ghost view = { λ s. record { taken = s.bytes.items; room = s.room; faults = s.faults } };

    ghost invariant = { λ s. vec_len s.bytes + s.room ≤ vec_capacity s.bytes };
}

impl SureSink {
    /// A sink that takes up to `room` bytes. The memory for all of them is taken here, and the only
    /// error is that it runs out.
    pub fn new(alloc: Global, room: usize) -> Result<SureSink, AllocError>
        ensures empty { IfOk result (λ sink. sink.taken ≡ []) }
        ensures room { IfOk result (λ sink. sink.room ≡ room) }
        ensures faultless { IfOk result (λ sink. sink.faults ≡ 0) }
    {
        let bytes = Vec::with_capacity(alloc, room)?;
        Ok(SureSink {
            bytes,
            room,
            faults: 0,
        })
    }

    /// The bytes that it has taken.
    pub fn taken(&self) -> &[u8]
        ensures { result.now ≡ self.now.taken }
    {
        &self.bytes
    }
}

impl Sink for SureSink {
    ghost taken = { λ s. Some s.taken };

    ghost faults = { λ s. s.faults };

    fn write(&mut self, piece: &[u8]) -> Result<usize, SinkFault>
        ensures bound { IfOk result (λ count. count ≤ length piece.now) }
        ensures progress { IfOk result (λ count. 0 < length piece.now → 0 < count) }
        ensures gained { IfOk result
            (λ count. Some self.new.taken ≡ append_known (Some self.old.taken)
            (take count piece.now)) }
        ensures kept { OnErr result (Some self.new.taken ≡ Some self.old.taken) }
        ensures counted { self.old.faults ≤ self.new.faults }
        ensures fault { OnErr result (Rose self.old.faults self.new.faults) }

        // A write fails where a piece finds no room, and nowhere else.
        ensures fails { IsErr result ↔ ((0 < length piece.now) × (self.old.room ≡ 0)) }
        ensures count { IfOk result (λ count. count ≡ min (length piece.now) self.old.room) }
        ensures ok { IfOk result (λ count. (self.new.room + count ≡ self.old.room)
            × (self.new.faults ≡ self.old.faults)) }
        ensures err { OnErr result ((self.new.room ≡ self.old.room)
            × (self.new.faults ≡ min (self.old.faults + 1) last_count)) }
    {
        if self.room == 0 && !piece.is_empty() {
            self.faults = self.faults.saturating_add(1);
            return Err(SinkFault);
        }
        let count = piece.len().min(self.room);
        let Ok(()) = self.bytes.extend_from_slice(&piece[..count]) else {
            unreachable!();
        };
        self.room -= count;
        Ok(count)
    }
}

/// Whether the call after this many is listed.
fn is_next_listed(listed: &[u64], calls: u64) -> bool
    ensures listed { IsTrue result ↔ Contains listed.now (calls + 1) }
    ensures more { IsTrue result → calls < last_count }
{
    match calls.checked_add(1) {
        Some(number) => listed.contains(&number),
        None => false,
    }
}

/// Copies the front of `from` into the front of `into`, at most `each` bytes, and answers how many.
fn copy_front(from: &[u8], into: &mut [u8], each: usize) -> usize
    ensures count { result ≡ min each (min (length into.old) (length from.now)) }
    ensures front { take result into.new ≡ take result from.now }
{
    let count = each.min(into.len()).min(from.len());
    into[..count].copy_from_slice(&from[..count]);
    count
}
