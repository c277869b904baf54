//! A source and a sink in memory that fail where they are told to.

ghost use Rattle.std.specs.Prelude.{◌≡◌, ◌+◌, ◌≤◌, ◌<◌, ◌↔◌, ℕ, List, [], Option, Some, length, min, take, drop, IfOk, OnErr, IsErr, true};
ghost use Rattle.std.specs.Io.{ReadsAtMost};
ghost use Rattle.std.specs.Io.KnownBytes.{ReadConsumes, WriteAppends};
ghost use Rattle.edge_io.specs.Causes.{HasCause};
ghost use Rattle.edge_io.specs.Memory.{Supply, Store, counted, is_to_fail};

use crate::traits::{Failed, Sink, Source};
use std::marker::Model;

/// Gives its bytes. The calls that are to fail are named by their numbers, from 1.
#[derive(Drop)]
pub struct MemorySource {
    bytes: Vec<u8>,
    at: usize,
    to_fail: Vec<u64>,
    calls: u64,
    faults: u64,
}

impl Model for MemorySource {
    ghost use Rattle.std.specs.Prelude.{drop};
    ghost use Rattle.edge_io.specs.Memory.{Supply};

    ghost Value = { Supply };

    ghost view = { λ s. record { left = drop s.at s.bytes.items; to_fail = s.to_fail.items; calls = s.calls; faults = s.faults } };
}

impl MemorySource {
    /// Takes no memory.
    pub fn new(bytes: Vec<u8>, to_fail: Vec<u64>) -> MemorySource
        ensures { result ≡ record { left = bytes.items; to_fail = to_fail.items; calls = 0; faults = 0 } }
    {
        MemorySource {
            bytes,
            at: 0,
            to_fail,
            calls: 0,
            faults: 0,
        }
    }
}

/// Copies as many bytes as fit, and answers how many.
pub fn fill(bytes: &[u8], buf: &mut [u8]) -> usize
    ensures count { result ≡ min (length bytes.now) (length buf.old) }
    ensures front { take result buf.new ≡ take result bytes.now }
{
    let count = bytes.len().min(buf.len());
    buf[..count].copy_from_slice(&bytes[..count]);
    count
}

impl Source for MemorySource {
    ghost left = { λ s. Some s.left };

    ghost faults = { λ s. s.faults };

    /// Fails exactly where the call's number is one of those that are to fail.
    fn read(&mut self, buf: &mut [u8]) -> Result<usize, Failed>
        ensures bound { ReadsAtMost result buf.new }
        ensures bytes { ReadConsumes (Some self.old.left) (Some self.new.left) result buf.new }
        ensures cause { HasCause self.old.faults self.new.faults result }
        ensures planned { IsErr result ↔ (is_to_fail self.old.to_fail self.old.calls ≡ true) }
        ensures counts { (self.new.to_fail ≡ self.old.to_fail) × (self.new.calls ≡ counted self.old.calls) }
    {
        self.calls = self.calls.saturating_add(1);
        if self.to_fail.contains(&self.calls) {
            self.faults = self.faults.saturating_add(1);
            return Err(Failed);
        }
        if self.at >= self.bytes.len() {
            return Ok(0);
        }
        let count = fill(&self.bytes[self.at..], buf);
        self.at += count;
        Ok(count)
    }
}

/// Keeps what it takes. The calls that are to fail are named by their numbers, from 1; want of memory is a fault too.
#[derive(Drop)]
pub struct MemorySink {
    bytes: Vec<u8>,
    to_fail: Vec<u64>,
    calls: u64,
    faults: u64,
}

impl Model for MemorySink {
    ghost use Rattle.edge_io.specs.Memory.{Store};

    ghost Value = { Store };

    ghost view = { λ s. record { taken = s.bytes.items; to_fail = s.to_fail.items; calls = s.calls; faults = s.faults } };
}

impl MemorySink {
    /// Takes no memory. What the sink takes is put behind the bytes that are given here.
    pub fn new(bytes: Vec<u8>, to_fail: Vec<u64>) -> MemorySink
        ensures { result ≡ record { taken = bytes.items; to_fail = to_fail.items; calls = 0; faults = 0 } }
    {
        MemorySink {
            bytes,
            to_fail,
            calls: 0,
            faults: 0,
        }
    }

    /// The bytes that were taken.
    pub fn bytes(&self) -> &[u8]
        ensures { result.now ≡ self.now.taken }
    {
        self.bytes.as_slice()
    }
}

impl Sink for MemorySink {
    ghost taken = { λ s. Some s.taken };

    ghost faults = { λ s. s.faults };

    /// Fails where the call's number is one of those that are to fail, and for want of memory. Else it takes the whole
    /// piece.
    fn write(&mut self, piece: &[u8]) -> Result<usize, Failed>
        ensures bound { IfOk result (λ count. count ≤ length piece.now) }
        ensures some { IfOk result (λ count. 0 < length piece.now → 0 < count) }
        ensures bytes { WriteAppends (Some self.old.taken) (Some self.new.taken) result piece.now }
        ensures cause { HasCause self.old.faults self.new.faults result }
        ensures whole { IfOk result (λ count. count ≡ length piece.now) }
        ensures planned { is_to_fail self.old.to_fail self.old.calls ≡ true → IsErr result }
        ensures counts { (self.new.to_fail ≡ self.old.to_fail) × (self.new.calls ≡ counted self.old.calls) }
    {
        self.calls = self.calls.saturating_add(1);
        if self.to_fail.contains(&self.calls) {
            self.faults = self.faults.saturating_add(1);
            return Err(Failed);
        }
        match self.bytes.extend_from_slice(piece) {
            Ok(()) => Ok(piece.len()),
            Err(_) => {
                self.faults = self.faults.saturating_add(1);
                Err(Failed)
            }
        }
    }
}
