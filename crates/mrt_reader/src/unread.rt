//! Octets that were read of a source and aren't taken yet.

ghost use Rattle.std.specs.Prelude.{◌≡◌, ◌++◌, ◌<◌, ◌≤◌, [], List, ℕ, length, drop};
ghost use Rattle.std.specs.Io.KnownBytes.{prepend_known};
ghost use Rattle.edge_io.specs.Causes.{Rose};
ghost use Rattle.mrt_reader.specs.Records.{AreBytes};
ghost use Rattle.mrt_reader.specs.Sources.{AreTaken, IsReady, holds_record};

use crate::answer::Stop;
use crate::fields::{HEADER, read_header};
use edge_io::Source;
use std::alloc::Global;
use std::marker::Model;

/// So many octets are read at once.
const READ_SIZE: usize = 65536;

/// What is left of the block that was read last. Contracts see those octets.
#[derive(Drop)]
pub(crate) struct Unread {
    block: Vec<u8>,
    at: usize,
}

impl Model for Unread {
    ghost use Rattle.std.specs.Prelude.{List, ℕ, ◌≤◌, drop, length};

    ghost Value = { List ℕ };

    ghost view = { λ u. drop u.at u.block.items };

    ghost invariant = { λ u. u.at ≤ length u.block.items };
}

/// Octets are bytes, as their type says.
fn known_bytes(octets: &[u8])
    ensures { AreBytes octets.now }
{}

impl Unread {
    /// Takes no memory.
    pub(crate) fn new(alloc: Global) -> Unread
        ensures { result ≡ [] }
    {
        Unread {
            block: Vec::new(alloc),
            at: 0,
        }
    }

    fn octets(&self) -> &[u8]
        ensures value { result.now ≡ self.now }
        ensures bytes { AreBytes result.now }
    {
        let octets = &self.block[self.at..];
        known_bytes(octets);
        octets
    }

    fn pass(&mut self, count: usize)
        requires { count ≤ length self.old }
        ensures { self.new ≡ drop count self.old }
    {
        self.at += count;
    }

    /// Whether a whole record stands there.
    pub(crate) fn holds_record(&self) -> bool
        ensures { result ≡ holds_record self.now }
    {
        let octets = self.octets();
        if octets.len() < HEADER {
            return false;
        }
        let header = read_header(&octets[..HEADER]);
        header.length as usize <= octets.len() - HEADER
    }

    /// Reads the next block. Answers whether it has octets; there are none at the end.
    #[inline(never)]
    fn refill<S: Source>(&mut self, source: &mut S) -> Result<bool, Stop>
        requires { length self.old ≡ 0 }
        ensures ready { IsReady (prepend_known self.old (S.left source.old)) (prepend_known self.new (S.left source.new)) self.new result }
        ensures drained { result ≡ Err Stop.ReadFault → self.new ≡ [] }
        ensures cause { result ≡ Err Stop.ReadFault → Rose (S.faults source.old) (S.faults source.new) }
        ensures later { S.faults source.old ≤ S.faults source.new }
    {
        let mut buf = [0u8; READ_SIZE];
        self.block.clear();
        self.at = 0;
        let Ok(count) = source.read(&mut buf) else {
            return Err(Stop::ReadFault);
        };
        self.block.extend_from_slice(&buf[..count])?;
        Ok(count > 0)
    }

    /// Reads the next block, where the last one was taken. Answers whether octets are there; there are none at the end.
    fn ready<S: Source>(&mut self, source: &mut S) -> Result<bool, Stop>
        ensures ready { IsReady (prepend_known self.old (S.left source.old)) (prepend_known self.new (S.left source.new)) self.new result }
        ensures drained { result ≡ Err Stop.ReadFault → self.new ≡ [] }
        ensures cause { result ≡ Err Stop.ReadFault → Rose (S.faults source.old) (S.faults source.new) }
        ensures later { S.faults source.old ≤ S.faults source.new }
    {
        if self.at < self.block.len() {
            return Ok(true);
        }
        self.refill(source)
    }

    /// Appends so many of the next octets, and answers whether there are so many. Else the input ends behind those that are
    /// appended.
    pub(crate) fn take<S: Source>(
        &mut self,
        source: &mut S,
        count: usize,
        out: &mut Vec<u8>,
    ) -> Result<bool, Stop>
        ensures taken { (octets : List ℕ) × (out.new.items ≡ out.old.items ++ octets) × AreTaken (prepend_known self.old (S.left source.old)) (prepend_known self.new (S.left source.new)) count result octets × AreBytes octets }
        ensures drained { result ≡ Err Stop.ReadFault → self.new ≡ [] }
        ensures cause { result ≡ Err Stop.ReadFault → Rose (S.faults source.old) (S.faults source.new) }
        ensures later { S.faults source.old ≤ S.faults source.new }
    {
        let mut missing = count;
        'taking: while missing > 0 {
            if !self.ready(source)? {
                return Ok(false);
            }
            let part = self.octets().len().min(missing);
            out.extend_from_slice(&self.octets()[..part])?;
            self.pass(part);
            missing -= part;
        }
        Ok(true)
    }

    /// The same without keeping them.
    pub(crate) fn skip<S: Source>(&mut self, source: &mut S, count: usize) -> Result<bool, Stop>
        ensures taken { (octets : List ℕ) × AreTaken (prepend_known self.old (S.left source.old)) (prepend_known self.new (S.left source.new)) count result octets × AreBytes octets }
        ensures drained { result ≡ Err Stop.ReadFault → self.new ≡ [] }
        ensures cause { result ≡ Err Stop.ReadFault → Rose (S.faults source.old) (S.faults source.new) }
        ensures later { S.faults source.old ≤ S.faults source.new }
    {
        let mut missing = count;
        'skipping: while missing > 0 {
            if !self.ready(source)? {
                return Ok(false);
            }
            let part = self.octets().len().min(missing);
            self.pass(part);
            missing -= part;
        }
        Ok(true)
    }
}
