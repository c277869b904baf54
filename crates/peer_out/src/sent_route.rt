//! A route as a peer is sent it.

ghost use Rattle.std.specs.Prelude.{◌≡◌, ◌↔◌, IfOk, IsTrue};
ghost use Rattle.bgp_attr.specs.Reflections.{reflected_by};
ghost use Rattle.peer_out.specs.Forms.{sent_form};
ghost use Rattle.journal_text.specs.Values.{attrs_value};
ghost use Rattle.peer_out.specs.Terms.{form_by, HaveOneWay, HaveOneRest};

use crate::terms::{Passed, Terms};
use addr4::{Addr, Family, Memory, Row, V4};
use bgp_attr::{Attrs, LentAttrs, Profile, Reflection, Route, SharedAttrs, Speaker};
use journal_text::{Value, Valued};
use std::alloc::Global;
use std::marker::Model;

/// A route as a peer is sent it: the route that the rules let out, which lends the attributes that the peer gets. Contracts see
/// these attributes, so two are equal where the peer gets the same of both. A table keeps one for each prefix that was sent: so it
/// has 32 octets and owns nothing but its share of the attributes.
#[derive(Drop)]
pub struct SentRoute<F: Family = V4> {
    /// Where its form is made, if it is.
    alloc: Global,
    /// As they were received, shared with the table in.
    attrs: SharedAttrs<F>,
    /// MULTI_EXIT_DISC, which rules may have set.
    med: Option<u32>,
    terms: Terms<Addr<F>>,
}

const _: () = prove!(size_of::<SentRoute>() <= 32);

impl<F: Family> Model for SentRoute<F> {
    ghost use Rattle.bgp_attr.specs.Attributes.{Attrs};

    ghost Value = { Attrs };

    ghost use Rattle.peer_out.specs.Terms.{form_by};

    ghost view = { λ s. form_by s.terms s.med s.attrs };
}

impl<F: Family> SentRoute<F> {
    /// A route as it is sent to a peer, external or internal to this speaker. Takes no memory: the attributes are shared. A form
    /// that is made of it comes from `alloc`.
    pub fn new(
        alloc: Global,
        profile: Profile,
        me: &Speaker<Addr<F>>,
        external: bool,
        row: &Route<SharedAttrs<F>>,
    ) -> Result<SentRoute<F>, Memory>
        ensures { IfOk result (λ sent. sent ≡ sent_form profile me.now external row.now) }
    {
        let attrs = row.attrs.copy()?;
        let terms = Terms::new(profile, me, external, row);
        Ok(SentRoute {
            alloc,
            attrs,
            med: row.med,
            terms,
        })
    }

    /// The attributes that the peer gets, lent. Takes no memory.
    pub fn lent(&self) -> LentAttrs<'_, F>
        ensures { result ≡ self.now }
    {
        let attrs = self.attrs.attrs();
        LentAttrs {
            path: self.terms.lent_path(&attrs.path),
            unrecognized: attrs.unrecognized.as_slice(),
            reflection: self.terms.lent_reflection(&attrs.reflection),
            aggregator: attrs.aggregator,
            med: self.med,
            local_pref: self.terms.local_pref(),
            next_hop: self.terms.next_hop(attrs.next_hop),
            origin: attrs.origin,
            atomic: attrs.atomic,
        }
    }

    /// The attributes that the peer gets, made: for what is printed of the route. Memory only for want of memory.
    pub fn form(&self) -> Result<SharedAttrs<F>, Memory>
        ensures { IfOk result (λ form. form ≡ self.now) }
    {
        SharedAttrs::new(self.alloc, self.made()?)
    }

    fn made(&self) -> Result<Attrs<Addr<F>>, Memory>
        ensures { IfOk result (λ form. form ≡ self.now) }
    {
        let attrs = self.attrs.attrs();
        let path = self.terms.path(&attrs.path)?;
        let reflection = self.terms.reflection(self.alloc, &attrs.reflection)?;
        let unrecognized = attrs.unrecognized.copy()?;
        Ok(Attrs {
            origin: attrs.origin,
            path,
            next_hop: self.terms.next_hop(attrs.next_hop),
            med: self.med,
            local_pref: self.terms.local_pref(),
            atomic: attrs.atomic,
            aggregator: attrs.aggregator,
            reflection,
            unrecognized,
        })
    }
}

impl<F: Family> Row for SentRoute<F> {
    /// Takes no memory: the attributes are shared.
    fn copy(&self) -> Result<SentRoute<F>, Memory> {
        let attrs = self.attrs.copy()?;
        Ok(SentRoute {
            alloc: self.alloc,
            attrs,
            med: self.med,
            terms: self.terms,
        })
    }

    /// Whether the peer gets the same of both, though they may differ in what it doesn't get. Takes no memory.
    fn same(&self, other: &SentRoute<F>) -> bool {
        let attrs = self.attrs.attrs();
        let others = other.attrs.attrs();
        self.med == other.med
            && has_one_rest(attrs, others)
            && has_one_way(self.terms, attrs, other.terms, others)
    }
}

impl<F: Family> Valued<F> for SentRoute<F> {
    ghost use Rattle.std.proofs.Common.{rules};

    ghost value = { attrs_value };

    ghost told = { λ a b same. Prim.search rules };

    /// The form is made.
    fn to_value(&self) -> Result<Value<SharedAttrs<F>, Addr<F>>, Memory> {
        Ok(Value::Attrs(self.form()?))
    }
}

/// Whether two forms have the same path, next hop and LOCAL_PREF, and the same of reflectors. An internal peer gets a LOCAL_PREF, an
/// external one none; an external one gets the local AS in front of the path at least once; and a route that is passed on inside the
/// AS has a cluster.
fn has_one_way<F: Family>(
    terms: Terms<Addr<F>>,
    attrs: &Attrs<Addr<F>>,
    other: Terms<Addr<F>>,
    others: &Attrs<Addr<F>>,
) -> bool
    ensures { IsTrue result ↔ HaveOneWay terms attrs.now other others.now }
{
    match (terms, other) {
        (Terms::External(one), Terms::External(two)) => {
            one.asn == two.asn
                && one.addr == two.addr
                && attrs.path.same_in_front(
                    one.asn,
                    u32::from(one.times()),
                    &others.path,
                    u32::from(two.times()),
                )
        }
        (Terms::Internal(one), Terms::Internal(two)) => {
            one == two && attrs.next_hop == others.next_hop && attrs.path.same(&others.path)
        }
        (Terms::Inside(one), Terms::Inside(two)) => {
            one.pref == two.pref
                && attrs.next_hop == others.next_hop
                && attrs.path.same(&others.path)
                && has_one_reflection(one, &attrs.reflection, two, &others.reflection)
        }
        _ => false,
    }
}

/// Whether two routes that are passed on inside the AS get the same originator and the same clusters.
fn has_one_reflection(one: Passed, added: &Reflection, two: Passed, others: &Reflection) -> bool
    ensures { IsTrue result ↔ (reflected_by one.sender one.cluster added.now ≡ reflected_by two.sender two.cluster others.now) }
{
    let originator = added.originator().unwrap_or(one.sender);
    let other = others.originator().unwrap_or(two.sender);
    originator == other && one.cluster == two.cluster && added.clusters() == others.clusters()
}

/// Whether two routes have the same of what every peer gets as it is.
fn has_one_rest<F: Family>(attrs: &Attrs<Addr<F>>, others: &Attrs<Addr<F>>) -> bool
    ensures { IsTrue result ↔ HaveOneRest attrs.now others.now }
{
    attrs.origin == others.origin
        && attrs.atomic == others.atomic
        && attrs.aggregator == others.aggregator
        && attrs.unrecognized.same(&others.unrecognized)
}
