ghost use Rattle.std.specs.Prelude.{◌≡◌, ◌+◌, ◌<◌, ◌≤◌, ◌++◌, ◌-◌, [], length, min, take, drop, IfOk, IsOk, is_err, if◌then◌else◌, Some, vec_len};
ghost use Rattle.std.specs.Io.{ReadsAtMost, WritesAtMost};
ghost use Rattle.std.specs.Io.KnownBytes.{ReadConsumes, WriteAppends};
ghost use Rattle.up_outside.specs.Cause.{HasCause};
ghost use Rattle.up_outside.specs.InMemory.{counted, feed_fails, feed_gives, tray_fails, tray_takes};

use crate::plan::Plan;
use crate::{Failed, Sink, Source};
use std::alloc::Global;
use std::marker::Model;
use up_num::{Bytes, Items, Memory};

/// A source over bytes in memory, some calls of which fail. Its room counts calls.
#[derive(Debug, Drop)]
pub struct MemSource {
    bytes: Bytes,
    taken: usize,
    piece: usize,
    room: u32,
    plan: Plan,
}

impl Model for MemSource {
    ghost use Rattle.std.specs.Prelude.{◌<◌, ◌≤◌, length, drop};
    ghost use Rattle.up_outside.specs.InMemory.{Feed};

    ghost Value = { Feed };

    ghost view = { λ source. record {
      left = drop source.taken source.bytes;
      most = source.piece;
      fail = source.plan.fail;
      room = source.room;
      calls = source.plan.calls;
      faults = source.plan.faults;
    } };

    ghost invariant = { λ source. (source.taken ≤ length source.bytes) × (0 < source.piece) };
}

impl MemSource {
    /// A source with these bytes. `fail` has the numbers of the calls that fail, counted from 1, and each call
    /// after `room` of them fails too.
    pub fn new(alloc: Global, bytes: &[u8], fail: &[u32], room: u32) -> Result<Self, Memory>
        ensures { IfOk result (λ made. made ≡ record { left = bytes.now; most = usize.MAX; fail = fail.now; room = room; calls = 0; faults = 0 }) }
    {
        let bytes = Items::from_slice(alloc, bytes)?;
        let plan = Plan::new(alloc, fail)?;
        Ok(MemSource {
            bytes,
            taken: 0,
            piece: usize::MAX,
            room,
            plan,
        })
    }

    /// The same source, which gives at most one byte a call from now on.
    pub fn by_byte(self) -> Self
        ensures { result ≡ record self { most = 1 } }
    {
        let mut source = self;
        source.piece = 1;
        source
    }
}

impl Source for MemSource {
    ghost left = { λ source. Some source.left };

    ghost faults = { λ source. source.faults };

    fn pull(&mut self, buf: &mut [u8]) -> Result<usize, Failed>
        ensures bound { ReadsAtMost result buf.new }
        ensures bytes { ReadConsumes (Some self.old.left) (Some self.new.left) result buf.new }
        ensures cause { HasCause self.old.faults self.new.faults result }
        ensures planned { is_err result ≡ feed_fails self.old }
        ensures count { IfOk result (λ count. count ≡ feed_gives self.old (length buf.new)) }
        ensures calls { self.new.calls ≡ counted self.old.calls }
        ensures faults { self.new.faults ≡ (if is_err result then counted self.old.faults else self.old.faults) }
        ensures same { (self.new.most ≡ self.old.most) × (self.new.fail ≡ self.old.fail) × (self.new.room ≡ self.old.room) }
    {
        let full = self.plan.calls >= u64::from(self.room);
        self.plan.begin(full)?;
        Ok(give(&self.bytes, &mut self.taken, self.piece, buf))
    }
}

/// A source over bytes in memory that never fails.
#[derive(Debug, Drop)]
pub struct PlainSource {
    bytes: Bytes,
    taken: usize,
}

impl Model for PlainSource {
    ghost use Rattle.std.specs.Prelude.{ℕ, List, ◌≤◌, length, drop};

    ghost Value = { List ℕ };

    ghost view = { λ source. drop source.taken source.bytes };

    ghost invariant = { λ source. source.taken ≤ length source.bytes };
}

impl PlainSource {
    /// A source with these bytes. Contracts see it as the bytes not yet read.
    pub fn new(alloc: Global, bytes: &[u8]) -> Result<Self, Memory>
        ensures { IfOk result (λ made. made ≡ bytes.now) }
    {
        let bytes = Items::from_slice(alloc, bytes)?;
        Ok(PlainSource { bytes, taken: 0 })
    }
}

impl Source for PlainSource {
    ghost left = { λ left. Some left };

    ghost faults = { λ _. 0 };

    fn pull(&mut self, buf: &mut [u8]) -> Result<usize, Failed>
        ensures bound { ReadsAtMost result buf.new }
        ensures bytes { ReadConsumes (Some self.old) (Some self.new) result buf.new }
        ensures cause { HasCause 0 0 result }
        ensures never { IsOk result }
    {
        Ok(give(&self.bytes, &mut self.taken, usize::MAX, buf))
    }
}

// Copies the next bytes to the start of the buffer, at most so many, and says how many.
fn give(bytes: &Bytes, taken: &mut usize, most: usize, buf: &mut [u8]) -> usize
    requires within { taken.old ≤ length bytes.now }
    requires some { 0 < most }
    ensures within { taken.new ≤ length bytes.now }
    ensures bound { result ≤ length buf.new }
    ensures count { result ≡ min (min (length bytes.now - taken.old) (length buf.new)) most }
    ensures given { drop taken.old bytes.now ≡ take result buf.new ++ drop taken.new bytes.now }
    ensures end { result ≡ 0 → 0 < length buf.new → drop taken.new bytes.now ≡ [] }
{
    let left = &bytes.as_slice()[*taken..];
    let count = left.len().min(buf.len()).min(most);
    buf[..count].copy_from_slice(&left[..count]);
    *taken += count;
    count
}

/// A sink in memory, some calls of which fail. Its room counts bytes.
#[derive(Debug, Drop)]
pub struct MemSink {
    bytes: Vec<u8>,
    filled: usize,
    piece: usize,
    plan: Plan,
}

impl Model for MemSink {
    ghost use Rattle.std.specs.Prelude.{◌<◌, ◌≤◌, take, vec_len};
    ghost use Rattle.up_outside.specs.InMemory.{Tray};

    ghost Value = { Tray };

    ghost view = { λ sink. record {
      written = take sink.filled sink.bytes.items;
      most = sink.piece;
      fail = sink.plan.fail;
      room = vec_len sink.bytes;
      calls = sink.plan.calls;
      faults = sink.plan.faults;
    } };

    ghost invariant = { λ sink. (sink.filled ≤ vec_len sink.bytes) × (0 < sink.piece) };
}

impl MemSink {
    /// A sink that takes `room` bytes in all. `fail` has the numbers of the calls that fail, counted from 1; a
    /// call that brings bytes when the room is full fails too.
    pub fn new(alloc: Global, fail: &[u32], room: u32) -> Result<Self, Memory>
        ensures { IfOk result (λ made. made ≡ record { written = []; most = usize.MAX; fail = fail.now; room = room; calls = 0; faults = 0 }) }
    {
        let plan = Plan::new(alloc, fail)?;
        let mut bytes = Vec::new(alloc);
        bytes.resize(room as usize, 0u8)?;
        Ok(MemSink {
            bytes,
            filled: 0,
            piece: usize::MAX,
            plan,
        })
    }

    /// The same sink, which takes at most one byte a call from now on.
    pub fn by_byte(self) -> Self
        ensures { result ≡ record self { most = 1 } }
    {
        let mut sink = self;
        sink.piece = 1;
        sink
    }

    /// All bytes that were taken.
    pub fn written(&self) -> &[u8]
        ensures { result.now ≡ self.now.written }
    {
        &self.bytes[..self.filled]
    }
}

impl Sink for MemSink {
    ghost written = { λ sink. Some sink.written };

    ghost faults = { λ sink. sink.faults };

    fn push(&mut self, bytes: &[u8]) -> Result<usize, Failed>
        ensures bound { WritesAtMost result bytes.now }
        ensures some { IfOk result (λ count. 0 < length bytes.now → 0 < count) }
        ensures bytes { WriteAppends (Some self.old.written) (Some self.new.written) result bytes.now }
        ensures cause { HasCause self.old.faults self.new.faults result }
        ensures planned { is_err result ≡ tray_fails self.old bytes.now }
        ensures count { IfOk result (λ count. count ≡ tray_takes self.old (length bytes.now)) }
        ensures calls { self.new.calls ≡ counted self.old.calls }
        ensures faults { self.new.faults ≡ (if is_err result then counted self.old.faults else self.old.faults) }
        ensures same { (self.new.most ≡ self.old.most) × (self.new.fail ≡ self.old.fail) × (self.new.room ≡ self.old.room) }
    {
        let free = self.bytes.len() - self.filled;
        self.plan.begin(free == 0 && !bytes.is_empty())?;
        let count = bytes.len().min(free).min(self.piece);
        put(&mut self.bytes, &mut self.filled, &bytes[..count]);
        Ok(count)
    }
}

// Copies a piece behind what is filled.
fn put(bytes: &mut Vec<u8>, filled: &mut usize, piece: &[u8])
    requires { filled.old + length piece.now ≤ vec_len bytes.old }
    ensures len { vec_len bytes.new ≡ vec_len bytes.old }
    ensures filled { filled.new ≡ filled.old + length piece.now }
    ensures after { take filled.new bytes.new.items ≡ take filled.old bytes.old.items ++ piece.now }
{
    let end = *filled + piece.len();
    bytes[*filled..end].copy_from_slice(piece);
    *filled = end;
}
