//! A core as a caller sees it, apart from the lines that it writes.

ghost use Rattle.std.specs.Prelude.{◌≡◌, OnOk, false};
ghost use Rattle.router_moments.specs.Stands.{CoreStands};

use addr4::read_prefix;
use event_text::{admit, parse};
use journal_text::{Journal, Link, Task};
use router_core::Core;
use router_moments::{Done, Phase};
use std::alloc::Global;
use std::test::Fail;

/// Three routes come, and nothing has read them yet.
const UNREAD: &str = "\
local 65000 192.0.2.254 192.0.2.254\n\
peer 1 65001 192.0.2.1 192.0.2.1\n\
peer 2 65002 192.0.2.2 192.0.2.2\n\
route add connected 192.0.2.0/24 direct eth0 1\n\
up 1\n\
up 2\n\
bgp 1 ffffffffffffffffffffffffffffffff00320200000012400101004002040201fde9400304c0000201100a01100a02100a03";

/// Steps the event of a line.
fn step_line(alloc: Global, core: &mut Core, line: &[u8], journal: &mut Journal) -> Result<(), Fail>
    requires { CoreStands core.old }
    ensures { OnOk result (CoreStands core.new) }
{
    let Ok(event) = parse(alloc, core.declared().profile(), line)? else {
        return Err(Fail::from("the line is refused"));
    };
    if admit(&event, core.declared()).is_some() || core.events() > 1000 {
        return Err(Fail::from("the event is refused"));
    }
    core.step(event, journal)?;
    Ok(())
}

/// Steps the lines one after the other.
fn run(alloc: Global, script: &str, core: &mut Core, journal: &mut Journal) -> Result<(), Fail>
    requires { CoreStands core.old }
    ensures { OnOk result (CoreStands core.new) }
{
    for line in script.as_bytes().split(|byte| *byte == b'\n') {
        step_line(alloc, core, line, journal)?;
    }
    Ok(())
}

/// Links, and how many rows each has once all is done; `-` where it isn't there.
const COUNTS: &str = "\
in.2 0\n\
in.3 -\n\
filt.1 3\n\
res.1 3\n\
best 3\n\
read.1.1 3\n\
adv.1.1 0\n\
adv.2.1 3\n\
red 0\n\
ext 3\n\
fib 4";

/// Whether a line of the table holds.
fn is_counted(core: &Core, line: &str) -> Result<bool, Fail> {
    let (link, rows) = line.split_once(' ').ok_or("no number")?;
    let link = Link::read(link.as_bytes()).ok_or("no link")?;
    Ok(core.count(link)? == rows.parse::<u128>().ok())
}

/// Fails at the first link that has another number of rows.
fn are_counted(core: &Core) -> Result<(), Fail> {
    for line in COUNTS.split('\n') {
        if !is_counted(core, line)? {
            return Err(Fail::from(line));
        }
    }
    Ok(())
}

/// Takes turns of the forwarding side's reader: whether the first is taken, how many others a phase takes, and whether nothing
/// is left then.
fn read_all(core: &mut Core, journal: &mut Journal) -> Result<(bool, u128, bool), Fail>
    requires { CoreStands core.old }
    ensures { OnOk result (CoreStands core.new) }
{
    let first = core.unit(Task::ReadRib, journal)? == Done::Taken;
    let others = core.drain(Phase::ReadRib, journal)?;
    let over = core.unit(Task::ReadRib, journal)? == Done::Nothing;
    Ok((first, others, over))
}

/// What an idle announces, and how many turns it takes.
fn idled(core: &mut Core, journal: &mut Journal) -> Result<[u128; 2], Fail>
    requires { CoreStands core.old }
    ensures { OnOk result (CoreStands core.new) }
{
    let idle = core.idle(journal)?;
    Ok([idle.bound, idle.turns])
}

/// Which task holds up the prefix of one of the routes.
fn held(core: &Core) -> Result<Option<Task>, Fail>
    requires { CoreStands core.now }
{
    let Ok(prefix) = read_prefix(b"10.2.0.0/16") else {
        return Err(Fail::from("no prefix"));
    };
    Ok(core.settled(prefix))
}

/// What the reader's turns answer, and two idles; and whether a prefix waits for the reader before, and is settled behind.
type Turns = ((bool, u128, bool), [[u128; 2]; 2], [bool; 2]);

fn follow(alloc: Global, core: &mut Core, journal: &mut Journal) -> Result<Turns, Fail>
    requires { CoreStands core.old }
{
    run(alloc, UNREAD, core, journal)?;
    let waits = held(core)? == Some(Task::ReadRib);
    let read = read_all(core, journal)?;
    let first = idled(core, journal)?;
    let again = idled(core, journal)?;
    are_counted(core)?;
    Ok((read, [first, again], [waits, held(core)?.is_none()]))
}

fn told(alloc: Global) -> Result<Turns, Fail> {
    let mut core = Core::new(alloc);
    let mut journal = Journal::new(alloc, true);
    let turns = follow(alloc, &mut core, &mut journal);
    drop(journal);
    drop(core);
    turns
}

#[test]
fn turns_are_taken_until_nothing_is_left(rt: HostRuntime) -> Result<(), Fail> {
    let turns = told(rt.alloc())?;
    assert!(rt; turns == ((true, 2, true), [[196, 16], [184, 0]], [true, true]));
    Ok(())
}
