//! The walk of a refresh: the peer asked for all rows again (RFC 2918, section 4).

ghost use Rattle.std.specs.Prelude.{◌≡◌, IfOk, OnOk, IsSome, Some, option_map};
ghost use Rattle.std.specs.Option.{ForSome};
ghost use Rattle.std.specs.FinMap as map;
ghost use Rattle.addr4.specs.Places.{key_of};
ghost use Rattle.out_chain.specs.Chains.{IsOutChain, walk_on, still_on, refreshed, has_refresh_work};
ghost use Rattle.peer_out.specs.Changes.{IsSentOf};
ghost use Rattle.journal_text.specs.Journals.{with_lines};
ghost use Rattle.out_chain.specs.Steps.{message_lines, IsTold, announcing, IsResent};

use crate::chain::OutChain;
use addr4::{Family, Memory, Place, Prefix};
use bgp_attr::Octets;
use cache_stage::Cache;
use journal_text::{Journal, Line};
use link_change::Upstream;
use peer_out::{SentRoute, Writes};

// A walk at a place is on where a row lies beyond it.
fn walk_on<F: Family>(
    sent: &Cache<SentRoute<F>, F>,
    place: Place<Prefix<F>>,
) -> Option<Place<Prefix<F>>>
    ensures { option_map key_of result ≡ walk_on sent.now (key_of place) }
{
    match Upstream::next_candidate(sent, &place) {
        Some(_) => Some(place),
        None => None,
    }
}

// Whether the walk that was on goes on. It looks only where one was.
pub(crate) fn still_on<F: Family>(
    sent: &Cache<SentRoute<F>, F>,
    walk: Option<Place<Prefix<F>>>,
) -> Option<Place<Prefix<F>>>
    ensures { option_map key_of result ≡ still_on sent.now (option_map key_of walk) }
{
    match walk {
        Some(place) => walk_on(sent, place),
        None => None,
    }
}

impl<F: Writes> OutChain<F> {
    /// The peer asks for all rows again: a walk over what was sent begins before all prefixes, whether or not one was on; none
    /// where nothing was sent. Takes no memory.
    pub fn refresh(&mut self)
        ensures { self.new ≡ refreshed self.old }
    {
        self.refresh = walk_on(&self.sent, Place::Before);
    }

    /// Whether the walk of a refresh is on.
    pub fn refreshing(&self) -> bool
        ensures { result ≡ has_refresh_work self.now }
    {
        self.refresh.is_some()
    }

    /// One turn of the walk of a refresh: the least row beyond its place is announced once more, and the place moves there. No row
    /// changes on any link. False exactly where no walk is on; then nothing changes.
    pub fn resend(&mut self, journal: &mut Journal<F>) -> Result<bool, Memory>
        requires chain { IsOutChain self.old }
        ensures { IfOk result (IsResent self.old self.new journal.old journal.new) }
    {
        let Some(place) = self.refresh else {
            return Ok(false);
        };
        let Some(prefix) = Upstream::next_candidate(&self.sent, &place) else {
            unreachable!()
        };
        self.say_again(prefix, journal)?;
        self.refresh = walk_on(&self.sent, Place::At(prefix));
        Ok(true)
    }

    // The row at a prefix is announced by the octets that announced it.
    fn say_again(&self, prefix: Prefix<F>, journal: &mut Journal<F>) -> Result<(), Memory>
        requires there { IsSome (map.get self.now.sent prefix) }
        requires sayable { ForSome (map.get self.now.sent prefix) (IsSentOf self.now.exit.profile self.now.exit.external prefix) }
        ensures lines { OnOk result (ForSome (map.get self.now.sent prefix) (λ attrs. journal.new ≡ with_lines journal.old (message_lines self.now (Some (announcing prefix attrs))))) }
        ensures told { OnOk result (ForSome (map.get self.now.sent prefix) (λ attrs. IsTold self.now.exit (announcing prefix attrs))) }
    {
        let Some(sent) = self.sent.row(prefix) else {
            unreachable!()
        };
        let octets = self.to_peer.out.announcement(prefix, sent)?;
        let number = u32::from(self.peer.number);
        journal.push_line(Line::Out(number, Octets::from_vec(octets)))?;
        Ok(())
    }
}
