//! Attributes, judged and gathered from left to right.

ghost use Rattle.std.specs.Prelude.{◌≡◌, false, [], IfErr, OnOk};
ghost use Rattle.bgp_attr.specs.declared.speaker.Profile.{Profile as HowRead};
ghost use Rattle.bgp_wire.specs.Attributes.{attribute_of};
ghost use Rattle.bgp_wire.specs.Found.{IsGathered, GathersOne, RefusesOne, IsGatheredTo};

use crate::attributes::{RawAttribute, Verdict, read_attribute};
use crate::found::Found;
use crate::notice::{FaultKind, Refusal, refused};
use crate::rules::{is_revised, milder};
use crate::types::TypeSet;
use bgp_attr::Profile;
use std::alloc::Global;

/// What was gathered so far.
#[derive(Drop)]
pub(crate) struct Gathered {
    seen: TypeSet,
    pub(crate) found: Found,
    /// Whether the UPDATE is a withdraw (RFC 7606, section 2).
    pub(crate) withdraw: bool,
}

impl Gathered {
    fn new(alloc: Global) -> Gathered
        ensures { (p : HowRead) → IsGathered p [] ([], false) result }
    {
        Gathered {
            seen: TypeSet::new(),
            found: Found::new(alloc),
            withdraw: false,
        }
    }

    /// Judges an attribute, and gathers what it says where it is kept.
    #[tactic(auto, unfolding(crate::specs::Attributes::judgement))]
    fn take(
        &mut self,
        alloc: Global,
        profile: Profile,
        external: bool,
        raw: &RawAttribute,
    ) -> Result<(), Refusal>
        ensures ok { OnOk result (GathersOne profile external (attribute_of raw.now) self.old self.new) }
        ensures err { IfErr result (λ e. RefusesOne profile external (attribute_of raw.now) self.old e) }
    {
        if self.seen.has(raw.kind) {
            milder(
                alloc,
                is_revised(profile, raw.kind),
                Verdict::Discard,
                FaultKind::MalformedAttributes,
                &[],
            )?;
            return Ok(());
        }
        let verdict = self.found.take(alloc, profile, external, raw)?;
        self.withdraw |= verdict.is_withdraw();
        self.seen.add(raw.kind);
        Ok(())
    }
}

/// The attributes of an UPDATE, from left to right (RFC 4271, section 6.3).
pub(crate) fn read_attributes(
    alloc: Global,
    profile: Profile,
    external: bool,
    bytes: &[u8],
) -> Result<Gathered, Refusal>
    ensures { IsGatheredTo profile external bytes.now result }
{
    let mut gathered = Gathered::new(alloc);
    let mut rest = bytes;
    'attributes: while !rest.is_empty() {
        let (raw, after) = match read_attribute(rest) {
            None => {
                if profile.revised {
                    gathered.withdraw = true;
                    return Ok(gathered);
                }
                return Err(refused(alloc, FaultKind::MalformedAttributes, &[]));
            }
            Some(found) => found,
        };
        gathered.take(alloc, profile, external, &raw)?;
        rest = after;
    }
    Ok(gathered)
}
