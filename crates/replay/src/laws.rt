//! Laws of event files that the program makes, and of its outputs: functions that do nothing, whose contracts are the laws.

ghost use Rattle.replay.specs.Apart.{NetworksStayApart};
ghost use Rattle.replay.specs.Answers.{CapturesAreAccepted, SeedsAreAccepted};
ghost use Rattle.replay.specs.One.{CallsAreOne, LiveIsOne, OutputIsOne, RefusalIsOne, TotalsAreOne};
ghost use Rattle.replay.specs.Reflection.{ReflectedRoutesAreMarked};
ghost use Rattle.replay.specs.Refreshes.{RefreshesAreServed, RefreshesEnd};

use bgp_wire::one_of_message_and_fault;
use capture_laws::lines_are_accepted;
use event_gen::lines_are_read;
use event_text::lines_of_ipv4_stay;
use journal_check::there_is_one_answer;
use live_state::{declarations_follow, routes_are_reflected, sessions_end};
use mrt_reader::{lines_are_few, texts_are_one};
use router_determinism::blocks_are_one;
use router_moments::first_moment_stands;

/// No line of a seed is refused.
pub fn seeds_are_accepted()
    ensures { SeedsAreAccepted }
{
    lines_are_read();
    lines_of_ipv4_stay();
}

/// No line of a capture is refused.
pub fn captures_are_accepted()
    ensures { CapturesAreAccepted }
{
    lines_are_accepted();
    lines_of_ipv4_stay();
    lines_are_few();
}

/// A peer that asks for all routes again (RFC 2918) is told them: as soon as the task `ref.J` has no work, as after an idle, each
/// route that the peer has was announced to it since.
pub fn refreshes_are_served()
    ensures served { RefreshesAreServed }
    ensures idle { RefreshesEnd }
{
    sessions_end();
}

/// After an idle each route that a peer has is the best one, passed on as a route reflector passes it (RFC 4456): never to the peer
/// that it is from, and from one internal peer to another with a longer CLUSTER_LIST, where one of them is a client.
pub fn reflected_routes_are_marked()
    ensures { ReflectedRoutesAreMarked }
{
    first_moment_stands();
    declarations_follow();
    routes_are_reflected();
}

/// For each text one output is allowed, and what is live at its end is one; and two calls over it that end alike have written the same.
pub fn outputs_are_one()
    ensures output { OutputIsOne }
    ensures refusal { RefusalIsOne }
    ensures totals { TotalsAreOne }
    ensures live { LiveIsOne }
    ensures calls { CallsAreOne }
{
    first_moment_stands();
    blocks_are_one();
    there_is_one_answer();
    texts_are_one();
    one_of_message_and_fault();
}

/// An event that names one family of addresses leaves each link of the other network as it is, and says nothing of it.
pub fn networks_stay_apart()
    ensures { NetworksStayApart }
{}
