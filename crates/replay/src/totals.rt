//! The totals that end the output of generated events.

ghost use Rattle.std.specs.Prelude.{◌≡◌, ◌≤◌, ◌⊎◌, ◌++◌, ℕ, List, drop, false, length, OnOk, IfOk};
ghost use Rattle.edge_io.specs.Causes.{Rose};
ghost use Rattle.check_run.specs.Runs.{Writes, IsFrontOf};
ghost use Rattle.journal_text.specs.Texts.{line_text};
ghost use Rattle.event_text.specs.Declarations.{peer_at};
ghost use Rattle.router_moments.specs.Moments.{router_links};
ghost use Rattle.replay.specs.Totals.{Adds, AreTotals, AreTotalsOf, IsTotal, rows_line, sent_link, sent_links, total_links, turns_line};

use crate::status::Status;
use crate::stream::Stream;
use addr4::Memory;
use check_run::write_all;
use edge_io::Sink;
use event_text::Declared;
use journal_text::{Line, Link, push_line};
use router_core::Core;
use std::alloc::Global;

/// So many bytes has the first word of a line `rows ..` or `work ..`.
const FIRST_WORD: usize = 4;

/// The text of a line that is no entry.
fn text_of_line(alloc: Global, line: Line) -> Result<Vec<u8>, Memory>
    ensures { IfOk result (λ text. text.items ≡ line_text false line) }
{
    let mut text = Vec::new(alloc);
    push_line(alloc, &mut text, &line)?;
    Ok(text)
}

/// Appends a first word, and what stands behind its own in the text of a line.
fn push_renamed(out: &mut Vec<u8>, word: &[u8], line: &[u8]) -> Result<(), Memory>
    requires { 4 ≤ length line.now }
    ensures { OnOk result (out.new.items ≡ out.old.items ++ (word.now ++ drop 4 line.now)) }
{
    out.extend_from_slice(word)?;
    out.extend_from_slice(&line[FIRST_WORD..])?;
    Ok(())
}

/// Appends `total turns T`, whose number is written as that of `work T` is.
#[tactic(auto, using(crate::proofs::TotalLemmas::long_work))]
fn push_turns(alloc: Global, out: &mut Vec<u8>, turns: u128) -> Result<(), Memory>
    ensures { OnOk result (out.new.items ≡ out.old.items ++ turns_line turns) }
{
    let line = text_of_line(alloc, Line::Work(turns))?;
    let pushed = push_renamed(out, b"total turns", line.as_slice());
    drop(line);
    pushed
}

/// Appends `total LINK ROWS`, whose words are those of `rows LINK ROWS` but for the first.
#[tactic(auto, using(crate::proofs::TotalLemmas::long_rows))]
fn push_count(alloc: Global, out: &mut Vec<u8>, link: Link, rows: u128) -> Result<(), Memory>
    ensures { OnOk result (out.new.items ≡ out.old.items ++ rows_line link rows) }
{
    let line = text_of_line(alloc, Line::Rows(link, rows))?;
    let pushed = push_renamed(out, b"total", line.as_slice());
    drop(line);
    pushed
}

/// Appends the line of a link, where it is live.
fn push_total(alloc: Global, core: &Core, link: Link, out: &mut Vec<u8>) -> Result<(), Memory>
    ensures { OnOk result (Adds (IsTotal link (router_links core.now.moment link)) out.old.items out.new.items) }
{
    match core.count(link)? {
        Some(rows) => push_count(alloc, out, link, rows),
        None => Ok(()),
    }
}

/// Appends the lines of links, of those that are live.
fn push_each(alloc: Global, core: &Core, links: &[Link], out: &mut Vec<u8>) -> Result<(), Memory>
    ensures { OnOk result (Adds (AreTotalsOf core.now.moment links.now) out.old.items out.new.items) }
{
    'counting: for link in links {
        push_total(alloc, core, *link, out)?;
    }
    Ok(())
}

/// Appends what a peer is sent in its last session.
fn push_sent_link(links: &mut Vec<Link>, declared: &Declared, number: u32) -> Result<(), Memory>
    ensures { OnOk result (links.new.items ≡ links.old.items ++ sent_link number (peer_at number declared.now.peers)) }
{
    if let Some(peer) = declared.peer(number) {
        links.push(Link::Adv(number, peer.session))?;
    }
    Ok(())
}

/// Appends what each of the four peers is sent in its last session.
fn push_sent_links(links: &mut Vec<Link>, declared: &Declared) -> Result<(), Memory>
    ensures { OnOk result (links.new.items ≡ links.old.items ++ sent_links declared.now.peers) }
{
    push_sent_link(links, declared, 1)?;
    push_sent_link(links, declared, 2)?;
    push_sent_link(links, declared, 3)?;
    push_sent_link(links, declared, 4)?;
    Ok(())
}

/// The links whose rows are counted.
fn total_links(alloc: Global, declared: &Declared) -> Result<Vec<Link>, Memory>
    ensures { IfOk result (λ links. links.items ≡ total_links declared.now.peers) }
{
    let mut links = vec![in alloc;
        Link::In(1),
        Link::In(2),
        Link::In(3),
        Link::In(4),
        Link::Best,
        Link::Fib,
    ]?;
    push_sent_links(&mut links, declared)?;
    Ok(links)
}

/// Appends the totals of a router whose events took so many turns.
fn push_totals(alloc: Global, core: &Core, turns: u128, out: &mut Vec<u8>) -> Result<(), Memory>
    ensures { OnOk result (Adds (AreTotals core.now.moment turns) out.old.items out.new.items) }
{
    push_turns(alloc, out, turns)?;
    let links = total_links(alloc, core.declared())?;
    push_each(alloc, core, links.as_slice(), out)?;
    Ok(())
}

/// The totals of a stream that has stepped all its events.
fn totals_of(alloc: Global, stream: &Stream) -> Result<Vec<u8>, Memory>
    ensures { IfOk result (λ totals. AreTotals stream.now.router.first.moment stream.now.turns totals.items) }
{
    let mut out = Vec::new(alloc);
    push_totals(alloc, stream.router().first(), stream.turns(), &mut out)?;
    Ok(out)
}

/// Writes the totals of a stream that has stepped all its events.
pub fn write_totals<K: Sink>(alloc: Global, stream: &Stream, sink: &mut K) -> Status
    ensures ok { result ≡ Status.Ok → Writes (K.taken sink.old) (K.taken sink.new) (AreTotals stream.now.router.first.moment stream.now.turns) }
    ensures memory { result ≡ Status.Memory → K.taken sink.new ≡ K.taken sink.old }
    ensures front { result ≡ Status.WriteFault → Writes (K.taken sink.old) (K.taken sink.new) (λ more. (totals : List ℕ) × AreTotals stream.now.router.first.moment stream.now.turns totals × IsFrontOf totals more) }
    ensures write_fault { result ≡ Status.WriteFault → Rose (K.faults sink.old) (K.faults sink.new) }
    ensures later { K.faults sink.old ≤ K.faults sink.new }
    ensures others { (result ≡ Status.Ok) ⊎ (result ≡ Status.Memory) ⊎ (result ≡ Status.WriteFault) }
{
    let Ok(totals) = totals_of(alloc, stream) else {
        return Status::Memory;
    };
    match write_all(sink, totals.as_slice()) {
        Ok(()) => Status::Ok,
        Err(_) => Status::WriteFault,
    }
}
