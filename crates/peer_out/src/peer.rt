//! What one peer is sent.

ghost use Rattle.std.specs.Prelude.{◌≡◌, ◌≤◌, IfOk, length};
ghost use Rattle.std.specs.Option.{ForSome};
ghost use Rattle.peer_out.specs.Forms.{as_sent};
ghost use Rattle.bgp_attr.specs.Speakers.{IsProfileOf};
ghost use Rattle.bgp_wire.specs.Readable.{announcing};
ghost use Rattle.bgp_wire.specs.Spelling.{update_octets};
ghost use Rattle.peer_out.specs.Changes.{IsSentOf, IsReadAs, saying, message_octets};

use crate::form::sent_route;
use crate::octets::{announcement, message};
use crate::sent_route::SentRoute;
use crate::writes::Writes;
use addr4::{Addr, Family, Memory, Prefix, V4};
use bgp_attr::{Profile, Route, SharedAttrs, Speaker};
use link_change::Change;
use std::alloc::Global;
use std::marker::Model;

/// What one peer is sent. Contracts see who sends, and whether the peer is external.
#[derive(Drop)]
pub struct PeerOut<F: Family = V4> {
    alloc: Global,
    profile: Profile,
    me: Speaker<Addr<F>>,
    external: bool,
}

impl<F: Family> Model for PeerOut<F> {
    ghost use Rattle.peer_out.specs.Forms.{Exit};

    ghost Value = { Exit };

    ghost view = { λ p. record { profile = p.profile; me = p.me; external = p.external } };

    ghost use Rattle.bgp_attr.specs.Speakers.{IsProfileOf};

    ghost invariant = { λ p. IsProfileOf F.V6 p.profile };
}

impl<F: Writes> PeerOut<F> {
    /// Takes no memory; what is sent later comes from `alloc`.
    pub fn new(alloc: Global, profile: Profile, me: Speaker<Addr<F>>, external: bool) -> PeerOut<F>
        requires { IsProfileOf F.V6 profile }
        ensures { result ≡ record { profile = profile; me = me; external = external } }
    {
        PeerOut {
            alloc,
            profile,
            me,
            external,
        }
    }

    /// Who sends has a profile of the family.
    pub fn known(&self)
        ensures { IsProfileOf F.V6 self.now.profile }
    {
        let _profile = self.profile;
    }

    /// What the peer is sent of a route at a prefix ([`crate::as_sent`]). Takes no memory: the attributes are shared, and how many
    /// octets they have in the peer's form is counted from what the route lends.
    pub fn sent(
        &self,
        prefix: Prefix<F>,
        row: &Route<SharedAttrs<F>>,
    ) -> Result<Option<SentRoute<F>>, Memory>
        ensures { IfOk result (λ sent. sent ≡ as_sent self.now.profile self.now.me self.now.external prefix row.now) }
    {
        sent_route(
            self.alloc,
            self.profile,
            &self.me,
            prefix,
            row,
            self.external,
        )
    }

    /// The octets that say a change to the peer ([`crate::message`]).
    pub fn message(&self, change: &Change<SentRoute<F>, Prefix<F>>) -> Result<Vec<u8>, Memory>
        requires { ForSome change.now.after (IsSentOf self.now.profile self.now.external change.now.prefix) }
        ensures octets { IfOk result (λ octets. octets.items ≡ message_octets self.now.profile change.now) }
        ensures short { IfOk result (λ octets. length octets.items ≤ 4096) }
        ensures reads { IfOk result (λ octets. IsReadAs self.now.profile self.now.external octets.items (saying change.now.prefix change.now.after)) }
    {
        message(self.alloc, self.profile, change, self.external)
    }

    /// The octets that announce a prefix to the peer with a route that is lent ([`crate::announcement`]).
    pub fn announcement(&self, prefix: Prefix<F>, sent: &SentRoute<F>) -> Result<Vec<u8>, Memory>
        requires { IsSentOf self.now.profile self.now.external prefix sent.now }
        ensures octets { IfOk result (λ octets. octets.items ≡ update_octets self.now.profile.second self.now.profile.as4 (announcing prefix sent.now)) }
        ensures short { IfOk result (λ octets. length octets.items ≤ 4096) }
        ensures reads { IfOk result (λ octets. IsReadAs self.now.profile self.now.external octets.items (announcing prefix sent.now)) }
    {
        announcement(self.alloc, self.profile, prefix, sent, self.external)
    }
}
