//! Who asked about which subnets, and the match that was answered.

ghost use Rattle.std.specs.Prelude.{◌≡◌, ◌+◌, ◌↔◌, IsTrue, OnOk, OnErr, IfOk};
ghost use Rattle.std.specs.FinMap as map;
ghost use Rattle.std.specs.BTreeMap.Range.{IsLeBy};
ghost use Rattle.addr4.specs.Prefixes.{Covers};
ghost use Rattle.register_interest.specs.Width.{width};
ghost use Rattle.register_interest.specs.Covers.{IsHit};
ghost use Rattle.register_interest.specs.Interests.{interest_cmp, IsBetween, AreProper, AreShortIn, Appends, AreReached, Pushes, without};

use crate::search::block;
use addr4::{Family, Memory, Prefix, V4};
use std::alloc::Global;
use std::collections::BTreeMap;
use std::marker::Model;
use std::ops::Bound;

/// A client's interest in a subnet.
#[derive(Clone, Copy, PartialEq, Eq, PartialOrd, Ord)]
pub struct Interest<P = Prefix> {
    pub subnet: P,
    pub client: u8,
}

// The interests, with the match of each, by subnet and then client.
#[derive(Drop)]
pub(crate) struct Interests<F: Family = V4> {
    kept: BTreeMap<Interest<Prefix<F>>, Option<Prefix<F>>>,
}

impl<F: Family> Model for Interests<F> {
    ghost use Rattle.std.specs.FinMap as map;
    ghost use Rattle.std.specs.Coded.{coded_option};
    ghost use Rattle.addr4.specs.Prefixes.{address_prefix_code};
    ghost use Rattle.register_interest.specs.Interests.{Interests, interest_code};

    ghost Value = { Interests };

    ghost coded = { map.code interest_code (coded_option address_prefix_code) };

    ghost view = { λ a. map.from_entries a.kept.entries };
}

// Whether a change at a prefix reaches an interest in the subnet.
fn is_hit<F: Family>(prefix: Prefix<F>, subnet: Prefix<F>, found: &Option<Prefix<F>>) -> bool
    ensures { IsTrue result ↔ IsHit width prefix subnet found.now }
{
    if !subnet.overlaps(prefix) {
        return false;
    }
    match found {
        None => true,
        Some(found) => found.length() <= prefix.length(),
    }
}

// Appends the interest where the change reaches it.
fn push_hit<F: Family>(
    out: &mut Vec<Interest<Prefix<F>>>,
    prefix: Prefix<F>,
    interest: &Interest<Prefix<F>>,
    found: &Option<Prefix<F>>,
) -> Result<(), Memory>
    ensures { OnOk result (Pushes width prefix (interest.now, found.now) out.old.items out.new.items) }
{
    if is_hit(prefix, interest.subnet, found) {
        out.push(Interest {
            subnet: interest.subnet,
            client: interest.client,
        })?;
    }
    Ok(())
}

impl<F: Family> Interests<F> {
    pub(crate) fn new(alloc: Global) -> Interests<F>
        ensures { result ≡ map.empty }
    {
        Interests {
            kept: BTreeMap::new(alloc),
        }
    }

    pub(crate) fn add(
        &mut self,
        interest: Interest<Prefix<F>>,
        found: Option<Prefix<F>>,
    ) -> Result<(), Memory>
        ensures ok { OnOk result (self.new ≡ map.insert self.old interest found) }
        ensures err { OnErr result (self.new ≡ self.old) }
    {
        self.kept.insert(interest, found)?;
        Ok(())
    }

    pub(crate) fn give_up(&mut self, interest: &Interest<Prefix<F>>)
        ensures { self.new ≡ map.remove self.old interest.now }
    {
        self.kept.remove(interest);
    }

    pub(crate) fn give_up_all(&mut self, interests: &[Interest<Prefix<F>>])
        ensures { self.new ≡ without self.old interests.now }
    {
        for interest in interests {
            self.give_up(interest);
        }
    }

    // Appends those from one to another that a change at a prefix reaches.
    fn push_between(
        &self,
        out: &mut Vec<Interest<Prefix<F>>>,
        prefix: Prefix<F>,
        from: Interest<Prefix<F>>,
        to: Interest<Prefix<F>>,
    ) -> Result<(), Memory>
        requires { IsLeBy interest_cmp from to }
        ensures { OnOk result (Appends width prefix (map.get self.now) (IsBetween from to) out.old.items out.new.items) }
    {
        let range = (Bound::Included(from), Bound::Included(to));
        for (interest, found) in self.kept.range(range) {
            push_hit(out, prefix, interest, found)?;
        }
        Ok(())
    }

    // Appends those in one subnet that a change at a prefix reaches.
    fn push_at(
        &self,
        out: &mut Vec<Interest<Prefix<F>>>,
        prefix: Prefix<F>,
        subnet: Prefix<F>,
    ) -> Result<(), Memory>
        requires { AreProper width self.now }
        ensures { OnOk result (Appends width prefix (map.get self.now) (λ k. k.subnet ≡ subnet) out.old.items out.new.items) }
    {
        let from = Interest { subnet, client: 0 };
        let to = Interest {
            subnet,
            client: 255,
        };
        self.push_between(out, prefix, from, to)
    }

    // Appends those in subnets that the prefix covers.
    fn push_within(
        &self,
        out: &mut Vec<Interest<Prefix<F>>>,
        prefix: Prefix<F>,
    ) -> Result<(), Memory>
        requires proper { AreProper width self.now }
        requires short { AreShortIn F.WIDTH self.now }
        ensures { OnOk result (Appends width prefix (map.get self.now) (λ k. Covers width prefix k.subnet) out.old.items out.new.items) }
    {
        prefix.known();
        let last = prefix.last();
        last.known();
        let from = Interest {
            subnet: prefix,
            client: 0,
        };
        let to = Interest {
            subnet: block(last, F::WIDTH),
            client: 255,
        };
        self.push_between(out, prefix, from, to)
    }

    // The interests that a change at a prefix reaches: some of those in the shorter prefixes of its address, and of those
    // in the prefixes that it covers.
    pub(crate) fn reached(
        &self,
        alloc: Global,
        prefix: Prefix<F>,
    ) -> Result<Vec<Interest<Prefix<F>>>, Memory>
        requires proper { AreProper width self.now }
        requires short { AreShortIn F.WIDTH self.now }
        ensures { IfOk result (λ out. AreReached width prefix (map.get self.now) out.items) }
    {
        prefix.known();
        let mut out = Vec::new(alloc);
        if self.kept.is_empty() {
            return Ok(out);
        }
        for length in 0..prefix.length() {
            self.push_at(&mut out, prefix, block(prefix.address(), length))?;
        }
        self.push_within(&mut out, prefix)?;
        Ok(out)
    }
}
