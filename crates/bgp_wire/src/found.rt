//! What attributes say, gathered from left to right.

ghost use Rattle.std.specs.Prelude.{◌≡◌, []};
ghost use Rattle.bgp_attr.specs.declared.speaker.Profile.{Profile as HowRead};
ghost use Rattle.bgp_wire.specs.Attributes.{attribute_of, judge_unrecognized, judge_recognized, judge_by, rule_of};
ghost use Rattle.bgp_wire.specs.Found.{Takes, Gathers};

use crate::ascending::Ascending;
use crate::attributes::{
    AGGREGATOR, ATOMIC_AGGREGATE, LOCAL_PREF, MP_REACH_NLRI, ORIGINATOR_ID, RawAttribute, TypeRule,
    Verdict,
};
use crate::message::Prefixes;
use crate::multiprotocol::Reach;
use crate::notice::{FaultKind, Refusal};
use crate::rules::{
    has_wrong_flags, has_wrong_size, is_revised, judge_unrecognized, milder, rule_of,
};
use addr4::{Addr, RouterId};
use addr6::V6;
use bgp_attr::{Aggregator, AsPath, ClusterList, Octets, Origin, Profile, Unrecognized};
use std::alloc::Global;

/// What was found so far; nothing of a type stands for no attribute of that type.
#[derive(Drop)]
pub(crate) struct Found {
    pub(crate) origin: Option<Origin>,
    pub(crate) path: Option<AsPath>,
    pub(crate) next_hop: Option<Addr>,
    pub(crate) med: Option<u32>,
    pub(crate) local_pref: Option<u32>,
    pub(crate) atomic: bool,
    pub(crate) aggregator: Option<Aggregator>,
    /// ORIGINATOR_ID.
    pub(crate) originator: Option<RouterId>,
    /// CLUSTER_LIST.
    pub(crate) clusters: ClusterList,
    /// MP_REACH_NLRI, of IPv6.
    pub(crate) reach: Option<Reach>,
    /// MP_UNREACH_NLRI, of IPv6.
    pub(crate) unreach: Option<Prefixes<V6>>,
    pub(crate) unrecognized: Ascending,
}

impl Found {
    pub(crate) fn new(alloc: Global) -> Found
        ensures { (p : HowRead) → Gathers p [] result }
    {
        Found {
            origin: None,
            path: None,
            next_hop: None,
            med: None,
            local_pref: None,
            atomic: false,
            aggregator: None,
            originator: None,
            clusters: ClusterList::new(alloc),
            reach: None,
            unreach: None,
            unrecognized: Ascending::new(alloc),
        }
    }

    /// Takes an attribute of a recognized type (RFC 4271, section 6.3).
    fn take_recognized(
        &mut self,
        alloc: Global,
        profile: Profile,
        external: bool,
        raw: &RawAttribute,
        rule: TypeRule,
    ) -> Result<Verdict, Refusal>
        requires { rule_of profile external raw.now.kind ≡ Some rule }
        ensures { Takes profile (attribute_of raw.now) self.old self.new result (judge_recognized profile external (attribute_of raw.now) rule) }
    {
        if profile.revised && external && raw.kind == LOCAL_PREF {
            return Ok(Verdict::Discard);
        }
        let revised = is_revised(profile, raw.kind);
        if has_wrong_flags(rule, raw) {
            return milder(
                alloc,
                revised,
                Verdict::Withdraw,
                FaultKind::BadFlags,
                raw.octets,
            );
        }
        if has_wrong_size(rule, raw.value) {
            let mild = if raw.kind == ATOMIC_AGGREGATE || raw.kind == AGGREGATOR {
                Verdict::Discard
            } else {
                Verdict::Withdraw
            };
            return milder(alloc, revised, mild, FaultKind::BadLength, raw.octets);
        }
        self.take_value(alloc, profile, raw)
    }

    /// Takes an attribute of an unrecognized type.
    fn take_unrecognized(
        &mut self,
        alloc: Global,
        profile: Profile,
        external: bool,
        raw: &RawAttribute,
    ) -> Result<Verdict, Refusal>
        requires { rule_of profile external raw.now.kind ≡ None }
        ensures { Takes profile (attribute_of raw.now) self.old self.new result (judge_unrecognized profile (attribute_of raw.now)) }
    {
        match judge_unrecognized(alloc, profile, raw)? {
            Verdict::Keep => {
                let value = Octets::from_vec(Vec::from_slice(alloc, raw.value)?);
                self.unrecognized.place(Unrecognized {
                    kind: raw.kind,
                    value,
                })?;
                Ok(Verdict::Keep)
            }
            verdict => Ok(verdict),
        }
    }

    pub(crate) fn take(
        &mut self,
        alloc: Global,
        profile: Profile,
        external: bool,
        raw: &RawAttribute,
    ) -> Result<Verdict, Refusal>
        ensures { Takes profile (attribute_of raw.now) self.old self.new result (judge_by profile external (attribute_of raw.now) (rule_of profile external raw.now.kind)) }
    {
        match rule_of(profile, external, raw.kind) {
            Some(rule) => self.take_recognized(alloc, profile, external, raw, rule),
            None => self.take_unrecognized(alloc, profile, external, raw),
        }
    }
}
