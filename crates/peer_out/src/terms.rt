//! What a route that a peer is sent takes from elsewhere than its attributes, by the kinds of the peers.

ghost use Rattle.std.specs.Prelude.{◌≡◌, ◌+◌, IfOk, false};
ghost use Rattle.peer_out.specs.Forms.{sent_form};
ghost use Rattle.peer_out.specs.Terms.{path_by, hop_by, pref_by, reflection_by, form_by};

use addr4::{Addr, Family, Memory, RouterId, Row};
use bgp_attr::{
    AsPath, LentPath, LentReflection, Profile, Reflection, Route, SharedAttrs, Speaker,
};
use std::alloc::Global;

/// What an external peer gets of this speaker.
#[derive(Clone, Copy)]
pub(crate) struct Outside<A = Addr> {
    /// The local AS.
    pub(crate) asn: u32,
    /// The local address.
    pub(crate) addr: A,
    /// How often more than once the local AS is put in front of the path, 0 to 16.
    pub(crate) prepend: u8,
}

impl<F: Family> Outside<Addr<F>> {
    /// How often the local AS is put in front of the path.
    pub(crate) fn times(self) -> u16
        ensures { result ≡ 1 + self.prepend }
    {
        1 + u16::from(self.prepend)
    }
}

/// What an internal peer gets of a route reflector with the route of another one (RFC 4456, section 8).
#[derive(Clone, Copy)]
pub(crate) struct Passed {
    /// The degree of preference.
    pub(crate) pref: u32,
    /// The identifier of the peer that sent the route.
    pub(crate) sender: RouterId,
    /// The reflector's cluster, which is its identifier.
    pub(crate) cluster: RouterId,
}

/// What a form takes from elsewhere than the route's attributes, by the kinds of the peers.
#[derive(Clone, Copy)]
pub(crate) enum Terms<A = Addr> {
    External(Outside<A>),
    /// With the degree of preference.
    Internal(u32),
    /// From an internal peer to another one.
    Inside(Passed),
}

impl<F: Family> Terms<Addr<F>> {
    pub(crate) fn new(
        profile: Profile,
        me: &Speaker<Addr<F>>,
        external: bool,
        row: &Route<SharedAttrs<F>>,
    ) -> Terms<Addr<F>>
        ensures { form_by result row.now.med row.now.attrs ≡ sent_form profile me.now external row.now }
    {
        if external {
            Terms::External(Outside {
                asn: me.asn,
                addr: me.addr,
                prepend: row.prepend,
            })
        } else {
            Terms::inside(profile, me, row)
        }
    }

    pub(crate) fn inside(
        profile: Profile,
        me: &Speaker<Addr<F>>,
        row: &Route<SharedAttrs<F>>,
    ) -> Terms<Addr<F>>
        ensures { form_by result row.now.med row.now.attrs ≡ sent_form profile me.now false row.now }
    {
        match row.from {
            Some(from) if profile.reflect && from.internal => Terms::Inside(Passed {
                pref: row.pref,
                sender: from.id,
                cluster: me.id,
            }),
            _ => Terms::Internal(row.pref),
        }
    }

    pub(crate) fn path(self, path: &AsPath) -> Result<AsPath, Memory>
        ensures { IfOk result (λ sent. sent ≡ path_by self path.now) }
    {
        match self {
            Terms::External(outside) => path.prepended(outside.asn, outside.prepend),
            Terms::Internal(_) | Terms::Inside(_) => path.copy(),
        }
    }

    pub(crate) fn lent_path(self, path: &AsPath) -> LentPath<'_>
        ensures { result ≡ path_by self path.now }
    {
        match self {
            Terms::External(outside) => {
                let asn = outside.asn;
                let times = outside.times();
                path.lent_in_front(asn, times)
            }
            Terms::Internal(_) | Terms::Inside(_) => path.lent(),
        }
    }

    pub(crate) fn next_hop(self, next_hop: Addr<F>) -> Addr<F>
        ensures { result ≡ hop_by self next_hop }
    {
        match self {
            Terms::External(outside) => outside.addr,
            Terms::Internal(_) | Terms::Inside(_) => next_hop,
        }
    }

    pub(crate) fn local_pref(self) -> Option<u32>
        ensures { result ≡ pref_by self }
    {
        match self {
            Terms::External(_) => None,
            Terms::Internal(pref) => Some(pref),
            Terms::Inside(passed) => Some(passed.pref),
        }
    }

    pub(crate) fn reflection(
        self,
        alloc: Global,
        reflection: &Reflection,
    ) -> Result<Reflection, Memory>
        ensures { IfOk result (λ sent. sent ≡ reflection_by self reflection.now) }
    {
        match self {
            Terms::External(_) | Terms::Internal(_) => Ok(Reflection::none()),
            Terms::Inside(passed) => reflection.reflected(alloc, passed.sender, passed.cluster),
        }
    }

    pub(crate) fn lent_reflection(self, reflection: &Reflection) -> LentReflection<'_>
        ensures { result ≡ reflection_by self reflection.now }
    {
        match self {
            Terms::External(_) | Terms::Internal(_) => LentReflection::none(),
            Terms::Inside(passed) => reflection.lent_reflected(passed.sender, passed.cluster),
        }
    }
}
