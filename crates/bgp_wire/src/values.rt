//! The values of recognized attributes, as they are found (RFC 4271, sections 4.3 and 6.3).

ghost use Rattle.std.specs.Prelude.{◌≡◌, ◌≤◌, length, true, slice_index, IsTrue, nat_lt, ◌&&◌, ◌||◌};
ghost use Rattle.bgp_wire.specs.Paths.{width_of};
ghost use Rattle.bgp_wire.specs.Attributes.{attribute_of, is_reflection, is_multiprotocol, is_revised, hop_at, judge_value, value_fault};
ghost use Rattle.bgp_wire.specs.Routes.{aggregator_of};
ghost use Rattle.bgp_wire.specs.Found.{origin_of, Takes};

use crate::attributes::{
    AGGREGATOR, AS_PATH, ATOMIC_AGGREGATE, LOCAL_PREF, MP_REACH_NLRI, MULTI_EXIT_DISC, NEXT_HOP,
    ORIGIN, ORIGINATOR_ID, RawAttribute, Verdict,
};
use crate::clusters::read_clusters;
use crate::found::Found;
use crate::multiprotocol::{read_reach, read_unreach};
use crate::notice::{FaultKind, Refusal};
use crate::numbers::{as_number, four_octets, width};
use crate::path::read_path;
use crate::rules::{is_multiprotocol, is_revised, milder};
use addr4::{Addr, RouterId};
use bgp_attr::{Aggregator, Origin, Profile};
use std::alloc::Global;

fn origin_of(code: u8) -> Origin
    ensures { result ≡ origin_of code }
{
    if code == 0 {
        Origin::Igp
    } else if code == 1 {
        Origin::Egp
    } else {
        Origin::Incomplete
    }
}

fn first_octet(octets: &[u8]) -> u8
    ensures { result ≡ slice_index octets.now 0 }
{
    octets.first().copied().unwrap_or(0)
}

/// The address of four octets.
fn hop_at(octets: &[u8]) -> Addr
    ensures { result ≡ hop_at octets.now }
{
    Addr::new(four_octets(octets))
}

fn aggregator_of(as4: bool, raw: &RawAttribute) -> Aggregator
    requires { width_of as4 ≤ length raw.now.value.now }
    ensures { result ≡ aggregator_of as4 (attribute_of raw.now) }
{
    Aggregator {
        asn: as_number(as4, raw.value),
        addr: RouterId::new(four_octets(&raw.value[width(as4)..])),
        partial: raw.flags / 32 % 2 == 1,
    }
}

impl Found {
    #[tactic(auto, unfolding(crate::specs::Attributes::value_fault, crate::specs::Found::found_with))]
    fn take_path(
        &mut self,
        alloc: Global,
        profile: Profile,
        raw: &RawAttribute,
    ) -> Result<Verdict, Refusal>
        requires { raw.now.kind ≡ 2 }
        ensures { Takes profile (attribute_of raw.now) self.old self.new result (judge_value (is_revised profile raw.now.kind) (value_fault profile.as4 (attribute_of raw.now))) }
    {
        match read_path(alloc, profile.as4, raw.value) {
            Ok(path) => {
                self.path = Some(path);
                Ok(Verdict::Keep)
            }
            Err(Refusal::Fault(_)) if is_revised(profile, raw.kind) => Ok(Verdict::Withdraw),
            Err(refusal) => Err(refusal),
        }
    }

    /// NEXT_HOP, of four octets.
    #[tactic(auto, unfolding(crate::specs::Attributes::value_fault, crate::specs::Found::found_with))]
    fn take_next_hop(
        &mut self,
        alloc: Global,
        profile: Profile,
        raw: &RawAttribute,
    ) -> Result<Verdict, Refusal>
        requires { raw.now.kind ≡ 3 }
        ensures { Takes profile (attribute_of raw.now) self.old self.new result (judge_value (is_revised profile raw.now.kind) (value_fault profile.as4 (attribute_of raw.now))) }
    {
        let next_hop = hop_at(raw.value);
        if !next_hop.is_host() {
            return milder(
                alloc,
                is_revised(profile, raw.kind),
                Verdict::Withdraw,
                FaultKind::BadNextHop,
                raw.octets,
            );
        }
        self.next_hop = Some(next_hop);
        Ok(Verdict::Keep)
    }

    /// MP_REACH_NLRI or MP_UNREACH_NLRI. A value of another family says nothing.
    #[tactic(auto, unfolding(crate::specs::Attributes::value_fault, crate::specs::Found::found_with))]
    fn take_multiprotocol(
        &mut self,
        alloc: Global,
        profile: Profile,
        raw: &RawAttribute,
    ) -> Result<Verdict, Refusal>
        requires { is_multiprotocol profile raw.now.kind ≡ true }
        ensures { Takes profile (attribute_of raw.now) self.old self.new result (judge_value (is_revised profile raw.now.kind) (value_fault profile.as4 (attribute_of raw.now))) }
    {
        if raw.kind == MP_REACH_NLRI {
            self.reach = read_reach(alloc, raw.octets, raw.value)?;
        } else {
            self.unreach = read_unreach(alloc, raw.octets, raw.value)?;
        }
        Ok(Verdict::Keep)
    }

    /// Takes an attribute of a recognized type, whose flags and length are right, by its value (RFC 4271, section 6.3).
    #[tactic(auto, unfolding(crate::specs::Attributes::value_fault, crate::specs::Found::found_with))]
    pub(crate) fn take_value(
        &mut self,
        alloc: Global,
        profile: Profile,
        raw: &RawAttribute,
    ) -> Result<Verdict, Refusal>
        requires recognized { IsTrue ((nat_lt 0 raw.now.kind && nat_lt raw.now.kind 8) || (is_reflection profile raw.now.kind || is_multiprotocol profile raw.now.kind)) }
        requires aggregator { raw.now.kind ≡ 7 → width_of profile.as4 ≤ length raw.now.value.now }
        ensures { Takes profile (attribute_of raw.now) self.old self.new result (judge_value (is_revised profile raw.now.kind) (value_fault profile.as4 (attribute_of raw.now))) }
    {
        if raw.kind == ORIGIN {
            let code = first_octet(raw.value);
            if code > 2 {
                return milder(
                    alloc,
                    is_revised(profile, raw.kind),
                    Verdict::Withdraw,
                    FaultKind::BadOrigin,
                    raw.octets,
                );
            }
            self.origin = Some(origin_of(code));
        } else if raw.kind == AS_PATH {
            return self.take_path(alloc, profile, raw);
        } else if raw.kind == NEXT_HOP {
            return self.take_next_hop(alloc, profile, raw);
        } else if raw.kind == MULTI_EXIT_DISC {
            self.med = Some(four_octets(raw.value));
        } else if raw.kind == LOCAL_PREF {
            self.local_pref = Some(four_octets(raw.value));
        } else if raw.kind == ATOMIC_AGGREGATE {
            self.atomic = true;
        } else if raw.kind == AGGREGATOR {
            self.aggregator = Some(aggregator_of(profile.as4, raw));
        } else if is_multiprotocol(profile, raw.kind) {
            return self.take_multiprotocol(alloc, profile, raw);
        } else if raw.kind == ORIGINATOR_ID {
            self.originator = Some(RouterId::new(four_octets(raw.value)));
        } else {
            self.clusters = read_clusters(alloc, raw.value)?;
        }
        Ok(Verdict::Keep)
    }
}
