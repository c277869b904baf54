//! One change of `ebgp` or `ibgp`, as it goes down.

ghost use Rattle.std.specs.Prelude.{◌≡◌, IfOk};
ghost use Rattle.nexthop_resolver.specs.Kept.{way_of};
ghost use Rattle.nexthop_resolver.specs.Registered.{Agrees, KeepsOthers};
ghost use Rattle.nexthop_resolver.specs.Resolving.{AreNamed};
ghost use Rattle.journal_text.specs.Journals.{Adds};
ghost use Rattle.rib_exit.specs.Exits.{journal_link};
ghost use Rattle.rib_exit.specs.Passing.{side_of, PassesDown, PassesBoth};

use addr4::{Addr, Memory, Prefix, Texts};
use ext_int::ExtInt;
use journal_text::{Journal, Link};
use link_change::{Change, Upstream};
use register_interest::Register;
use rib_merge::{Side, take_in};
use rib_route::{External, FibRow, Interior};
use rib_split::BgpLink;

// The link of the journal.
fn journal_link(link: BgpLink) -> Link
    ensures { result ≡ journal_link link }
{
    match link {
        BgpLink::Ebgp => Link::Ebgp,
        BgpLink::Ibgp => Link::Ibgp,
    }
}

// The side of the merge that the link is on.
fn side_of(link: BgpLink) -> Side
    ensures { result ≡ side_of link }
{
    match link {
        BgpLink::Ebgp => Side::Left,
        BgpLink::Ibgp => Side::Right,
    }
}

/// A change of one link: its line, then, where the row of `ext` changes, the line of that, and then, where the row of `fib`
/// changes, the line of that. The other link has this row at its prefix. Answers the change of `fib`.
pub(crate) fn pass<F: Texts, I: Upstream<F, Row = Interior<Addr<F>>>>(
    hops: &mut ExtInt<F>,
    link: BgpLink,
    change: Change<External<Addr<F>>, Prefix<F>>,
    other: Option<External<Addr<F>>>,
    int: &I,
    register: &mut Register<Interior<Addr<F>>, F>,
    journal: &mut Journal<F>,
) -> Result<Option<Change<FibRow<Addr<F>>, Prefix<F>>>, Memory>
    requires agrees { Agrees way_of hops.old.client hops.old.known register.old }
    ensures passed { IfOk result (λ sent. Adds (PassesDown link change other (I.rows int.now) register.old hops.old hops.new sent) journal.old journal.new) }
    ensures client { hops.new.client ≡ hops.old.client }
    ensures named { AreNamed hops.new.counts hops.new.known }
    ensures agrees { Agrees way_of hops.new.client hops.new.known register.new }
    ensures others { KeepsOthers hops.old.client register.old register.new }
{
    hops.are_named();
    journal.push_change(journal_link(link), &change)?;
    let Some(merged) = take_in(side_of(link), change, other) else {
        return Ok(None);
    };
    journal.push_change(Link::Ext, &merged)?;
    let sent = hops.take_ext(merged, int, register)?;
    hops.are_named();
    journal.push_sent(Link::Fib, &sent)?;
    Ok(sent)
}

/// A route moves to a link from the other one: the add goes down to the end, and then the delete.
pub(crate) fn pass_both<F: Texts, I: Upstream<F, Row = Interior<Addr<F>>>>(
    hops: &mut ExtInt<F>,
    link: BgpLink,
    add: Change<External<Addr<F>>, Prefix<F>>,
    delete: Change<External<Addr<F>>, Prefix<F>>,
    int: &I,
    register: &mut Register<Interior<Addr<F>>, F>,
    journal: &mut Journal<F>,
) -> Result<Option<Change<FibRow<Addr<F>>, Prefix<F>>>, Memory>
    requires agrees { Agrees way_of hops.old.client hops.old.known register.old }
    ensures passed { IfOk result (λ sent. Adds (PassesBoth link add delete (I.rows int.now) register.old hops.old hops.new sent) journal.old journal.new) }
    ensures client { hops.new.client ≡ hops.old.client }
    ensures named { AreNamed hops.new.counts hops.new.known }
    ensures agrees { Agrees way_of hops.new.client hops.new.known register.new }
    ensures others { KeepsOthers hops.old.client register.old register.new }
{
    let was = delete.before;
    let is = add.after;
    let first = pass(hops, link, add, was, int, register, journal)?;
    let second = pass(hops, link.other(), delete, is, int, register, journal)?;
    Ok(first.or(second))
}
