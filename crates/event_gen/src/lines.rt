//! The lines of events.

ghost use Rattle.std.specs.Prelude.{◌≡◌, ◌++◌, ◌∷◌, [], ◌<◌, OnOk, IfOk, false, codes};
ghost use Rattle.std.specs.List.{join_with_byte};
ghost use Rattle.std.specs.Fmt.{decimal};
ghost use Rattle.hex.specs.Hex.{encode_lower};
ghost use Rattle.addr4.specs.Texts.{prefix_text};
ghost use Rattle.event_gen.specs.Lines.{block, peer_addr, path_as, announced, announce_octets, withdraw_octets, host, work_text, event_words, event_line};

use crate::drawn::{Drawn, Work};
use addr4::{Addr, Memory, Prefix, push_hex, push_number, push_prefix};
use bgp_attr::{AsPath, Attrs, Origin, Profile, Reflection, UnrecognizedAttrs};
use bgp_wire::{write_announcement, write_withdrawal};
use std::alloc::Global;

/// AS numbers have two octets.
const PROFILE: Profile = Profile {
    as4: false,
    revised: false,
    reflect: false,
    v6: false,
    second: false,
};

/// 10.0.0.0
const TEN: u32 = 0x0a00_0000;

/// 192.0.2.0
const PEERS: u32 = 0xc000_0200;

/// The prefix 10.X.0.0/16.
#[tactic(auto, using(crate::proofs::LineLemmas::block_masked))]
fn block(x: u8) -> Prefix
    ensures { result ≡ block x }
{
    Prefix::new(Addr::new(TEN + u32::from(x) * 0x1_0000), 16).unwrap()
}

/// The address 192.0.2.K.
fn peer_addr(peer: u8) -> Addr
    ensures { result ≡ peer_addr peer }
{
    Addr::new(PEERS + u32::from(peer))
}

/// The prefix 192.0.2.K/32.
#[tactic(auto, using(crate::proofs::LineLemmas::host_masked))]
fn host(peer: u8) -> Prefix
    ensures { result ≡ host peer }
{
    Prefix::new(peer_addr(peer), 32).unwrap()
}

/// The AS of the path of a peer's routes.
fn path_as(peer: u8) -> u32
    ensures value { result ≡ path_as peer }
    ensures small { result < 65536 }
{
    if peer == 2 {
        65002
    } else if peer == 3 {
        65003
    } else {
        65001
    }
}

/// The attributes with which a peer announces.
fn announced(alloc: Global, peer: u8, origin: Origin, med: u8) -> Result<Attrs, Memory>
    ensures { IfOk result (λ attrs. attrs ≡ announced peer origin med) }
{
    let path = AsPath::new(alloc).prepended(path_as(peer), 0)?;
    Ok(Attrs {
        origin,
        path,
        next_hop: peer_addr(peer),
        med: Some(u32::from(med)),
        local_pref: None,
        atomic: false,
        aggregator: None,
        reflection: Reflection::none(),
        unrecognized: UnrecognizedAttrs::none(),
    })
}

/// The UPDATE that announces the prefix 10.X.0.0/16.
fn announce_octets(
    alloc: Global,
    peer: u8,
    x: u8,
    origin: Origin,
    med: u8,
) -> Result<Vec<u8>, Memory>
    ensures { IfOk result (λ octets. octets.items ≡ announce_octets peer x origin med) }
{
    let attrs = announced(alloc, peer, origin, med)?;
    let octets = write_announcement(alloc, PROFILE, block(x), &attrs.lent())?;
    Ok(octets.unwrap())
}

/// The UPDATE that withdraws it.
fn withdraw_octets(alloc: Global, x: u8) -> Result<Vec<u8>, Memory>
    ensures { IfOk result (λ octets. octets.items ≡ withdraw_octets x) }
{
    write_withdrawal(alloc, block(x))
}

fn push_text(out: &mut Vec<u8>, text: &[u8]) -> Result<(), Memory>
    ensures { OnOk result (out.new.items ≡ out.old.items ++ text.now) }
{
    out.extend_from_slice(text)?;
    Ok(())
}

/// A text and a number.
fn push_numbered(out: &mut Vec<u8>, text: &[u8], number: u8) -> Result<(), Memory>
    ensures { OnOk result (out.new.items ≡ out.old.items ++ (text.now ++ decimal number)) }
{
    push_text(out, text)?;
    push_number(out, u64::from(number))
}

/// `bgp K HEX`
fn push_message(out: &mut Vec<u8>, peer: u8, octets: &[u8]) -> Result<(), Memory>
    ensures { OnOk result (out.new.items ≡ out.old.items ++ join_with_byte 32 (codes "bgp" ∷ decimal peer ∷ encode_lower octets.now ∷ [])) }
{
    push_numbered(out, b"bgp ", peer)?;
    out.push(b' ')?;
    push_hex(out, octets)
}

/// `filter in K any pref N accept`
fn push_filter(out: &mut Vec<u8>, peer: u8, pref: u8) -> Result<(), Memory>
    ensures { OnOk result (out.new.items ≡ out.old.items ++ join_with_byte 32 (codes "filter" ∷ codes "in" ∷ decimal peer ∷ codes "any" ∷ codes "pref" ∷ decimal pref ∷ codes "accept" ∷ [])) }
{
    push_numbered(out, b"filter in ", peer)?;
    push_numbered(out, b" any pref ", pref)?;
    push_text(out, b" accept")
}

/// A text and the prefix 192.0.2.K/32.
fn push_host(out: &mut Vec<u8>, text: &[u8], peer: u8) -> Result<(), Memory>
    ensures { OnOk result (out.new.items ≡ out.old.items ++ (text.now ++ prefix_text false (host peer))) }
{
    push_text(out, text)?;
    push_prefix(out, host(peer))
}

/// `route add static 192.0.2.K/32 direct eth1 N`
fn push_route_add(out: &mut Vec<u8>, peer: u8, metric: u8) -> Result<(), Memory>
    ensures { OnOk result (out.new.items ≡ out.old.items ++ join_with_byte 32 (codes "route" ∷ codes "add" ∷ codes "static" ∷ prefix_text false (host peer) ∷ codes "direct" ∷ codes "eth1" ∷ decimal metric ∷ [])) }
{
    push_host(out, b"route add static ", peer)?;
    push_numbered(out, b" direct eth1 ", metric)
}

/// `route del static 192.0.2.K/32`
fn push_route_del(out: &mut Vec<u8>, peer: u8) -> Result<(), Memory>
    ensures { OnOk result (out.new.items ≡ out.old.items ++ join_with_byte 32 (codes "route" ∷ codes "del" ∷ codes "static" ∷ prefix_text false (host peer) ∷ [])) }
{
    push_host(out, b"route del static ", peer)
}

/// The name of a task.
fn push_task(out: &mut Vec<u8>, task: Work) -> Result<(), Memory>
    ensures { OnOk result (out.new.items ≡ out.old.items ++ work_text task) }
{
    match task {
        Work::ReadRib => push_text(out, b"rd.rib"),
        Work::Out(peer) => push_numbered(out, b"out.", peer),
        Work::NextHops(peer) => push_numbered(out, b"nh.", peer),
        Work::Filter(peer) => push_numbered(out, b"fin.", peer),
    }
}

/// `work TASK N`
fn push_work(out: &mut Vec<u8>, task: Work, turns: u8) -> Result<(), Memory>
    ensures { OnOk result (out.new.items ≡ out.old.items ++ join_with_byte 32 (codes "work" ∷ work_text task ∷ decimal turns ∷ [])) }
{
    push_text(out, b"work ")?;
    push_task(out, task)?;
    push_numbered(out, b" ", turns)
}

/// The line of an event, without its end. For want of memory some front of it may have been appended.
#[tactic(auto, unfolding(crate::specs::Lines::event_words))]
pub(crate) fn push_event(alloc: Global, out: &mut Vec<u8>, event: Drawn) -> Result<(), Memory>
    ensures { OnOk result (out.new.items ≡ out.old.items ++ event_line event) }
{
    match event {
        Drawn::Announce(peer, x, origin, med) => {
            let octets = announce_octets(alloc, peer, x, origin, med)?;
            push_message(out, peer, octets.as_slice())
        }
        Drawn::Withdraw(peer, x) => {
            let octets = withdraw_octets(alloc, x)?;
            push_message(out, peer, octets.as_slice())
        }
        Drawn::Down(peer) => push_numbered(out, b"down ", peer),
        Drawn::Up(peer) => push_numbered(out, b"up ", peer),
        Drawn::Prefer(peer, pref) => push_filter(out, peer, pref),
        Drawn::AddHost(peer, metric) => push_route_add(out, peer, metric),
        Drawn::DeleteHost(peer) => push_route_del(out, peer),
        Drawn::Work(task, turns) => push_work(out, task, turns),
        Drawn::Idle => push_text(out, b"idle"),
    }
}
