//! What is asked of the second network: its lines come into the text of both.

ghost use Rattle.std.specs.Prelude.{◌≡◌, ◌+◌, ◌<◌, ◌^◌, ◌∷◌, ◌++◌, [], ℕ, true, false, OnOk, IfOk};
ghost use Rattle.bgp_attr.specs.Speakers.{IsProfileOf, IsSpeaker};
ghost use Rattle.event_text.specs.declared.event.Event.TheVariants as events;
ghost use Rattle.event_text.specs.Declarations.{refusal};
ghost use Rattle.router_core.specs.Heard.{SayOfFamily};
ghost use Rattle.router_moments.specs.Blocks.{Acts};
ghost use Rattle.router_moments.specs.Moments.{first_moment, profiled, bound_of};
ghost use Rattle.router_moments.specs.Stands.{CoreStands};
ghost use Rattle.router.specs.Steps.{GivesSecond, MayStep, IsFew, idle_lines};

use crate::journals::Journals;
use addr4::{Addr, Memory};
use addr6::V6;
use bgp_attr::{Profile, Speaker};
use bgp_wire::Said;
use event_text::{Event, EventOf};
use router_core::Core;

/// The second network begins with this speaker's words, and reads and writes messages by this profile.
pub(crate) fn begin(
    second: &mut Core<V6>,
    profile: Profile,
    words: Speaker<Addr<V6>>,
    journals: &mut Journals,
) -> Result<(), Memory>
    requires fresh { second.old ≡ record { moment = first_moment true; events = 0; failed = false } }
    requires family { IsProfileOf true profile }
    requires words { IsSpeaker true profile.as4 words }
    ensures acts { OnOk result (GivesSecond (Acts (profiled (first_moment true) profile) (events.Local words) 0 second.new.moment) journals.old journals.new) }
    ensures stands { OnOk result (CoreStands second.new) }
    ensures events { OnOk result (second.new.events ≡ 1) }
{
    second.set_profile(profile);
    told_second(second, Event::Local(words), journals)?;
    Ok(())
}

/// The second network is told an event.
#[inline(never)]
pub(crate) fn told_second(
    second: &mut Core<V6>,
    told: EventOf<V6>,
    journals: &mut Journals,
) -> Result<u128, Memory>
    requires may { MayStep told second.old }
    requires few { IsFew second.old }
    requires stands { CoreStands second.old }
    ensures acts { IfOk result (λ turns. GivesSecond (Acts second.old.moment told turns second.new.moment) journals.old journals.new) }
    ensures stands { OnOk result (CoreStands second.new) }
    ensures events { OnOk result (second.new.events ≡ second.old.events + 1) }
{
    let mut own = journals.lend()?;
    let stepped = second.step(told, &mut own);
    journals.take_back(own);
    stepped
}

/// The second network hears what an UPDATE says of its routes.
pub(crate) fn hear_second(
    second: &mut Core<V6>,
    number: u32,
    octets: &[u8],
    said: Said<V6>,
    journals: &mut Journals,
) -> Result<(), Memory>
    requires may { MayStep (events.Bgp number octets.now) second.old }
    requires said { SayOfFamily second.old.moment.declared number octets.now said }
    requires few { IsFew second.old }
    requires stands { CoreStands second.old }
    ensures acts { OnOk result (GivesSecond (Acts second.old.moment (events.Bgp number octets.now) 0 second.new.moment) journals.old journals.new) }
    ensures stands { OnOk result (CoreStands second.new) }
    ensures events { OnOk result (second.new.events ≡ second.old.events + 1) }
{
    let mut own = journals.lend()?;
    let heard = second.hear(number, octets, said, &mut own);
    journals.take_back(own);
    heard
}

/// The second network does its work to its end.
pub(crate) fn rest_second(second: &mut Core<V6>, journals: &mut Journals) -> Result<u128, Memory>
    requires admitted { refusal second.old.moment.declared events.Idle ≡ None }
    requires few { IsFew second.old }
    requires bound { bound_of second.old.moment < 2 ^ 128 }
    requires stands { CoreStands second.old }
    ensures acts { IfOk result (λ turns. GivesSecond (λ inner. Acts second.old.moment events.Idle turns second.new.moment (idle_lines (bound_of second.old.moment) inner turns)) journals.old journals.new) }
    ensures stands { OnOk result (CoreStands second.new) }
    ensures events { OnOk result (second.new.events ≡ second.old.events + 1) }
{
    let mut own = journals.lend()?;
    let rested = second.rest(&mut own);
    journals.take_back(own);
    rested
}
