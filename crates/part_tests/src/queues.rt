//! A queue that is prepared for lookups while changes come and are taken.

ghost use Rattle.std.specs.Prelude.{◌≡◌, OnOk, IsSome};
ghost use Rattle.std.specs.FinMap as map;
ghost use Rattle.fanout_queue.specs.Queues.{KeepsReaders};

use crate::prefixes::{prefix, prefix6};
use addr4::{Addr, Family, Memory, Prefix};
use fanout_queue::{Queue, Reader};
use link_change::Change;
use rib_route::External;
use std::alloc::Global;
use std::test::Fail;

/// A change at a prefix.
fn put<F: Family>(queue: &mut Queue<External<Addr<F>>, F>, at: Prefix<F>) -> Result<(), Memory>
    ensures { OnOk result (KeepsReaders queue.old queue.new) }
{
    let row = External {
        internal: false,
        next_hop: at.address(),
    };
    queue.put(Change {
        prefix: at,
        before: None,
        after: Some(row),
    })
}

/// At which of the prefixes the reader hasn't taken a change.
fn unread<F: Family>(
    queue: &Queue<External<Addr<F>>, F>,
    reader: &Reader,
    at: [Prefix<F>; 3],
) -> [bool; 3]
    requires { IsSome (map.get queue.now reader.now) }
{
    let [first, second, third] = at;
    [
        queue.unread(reader, first),
        queue.unread(reader, second),
        queue.unread(reader, third),
    ]
}

/// The reader takes a change, and the queue is prepared again.
fn take<F: Family>(
    queue: &mut Queue<External<Addr<F>>, F>,
    reader: &mut Reader,
) -> Result<(), Memory>
    requires { IsSome (map.get queue.old reader.old) }
    ensures same { OnOk result (reader.new ≡ reader.old) }
    ensures stay { OnOk result (KeepsReaders queue.old queue.new) }
{
    drop(queue.take(reader)?);
    queue.prepare()
}

/// What the reader hasn't taken when changes at the second and the first prefix are prepared for and one at the third isn't, and
/// behind each that it takes.
fn told<F: Family>(
    queue: &mut Queue<External<Addr<F>>, F>,
    reader: &mut Reader,
    at: [Prefix<F>; 3],
) -> Result<[[bool; 3]; 4], Memory>
    requires { IsSome (map.get queue.old reader.old) }
{
    let [first, second, third] = at;
    put(queue, second)?;
    put(queue, first)?;
    queue.prepare()?;
    put(queue, third)?;
    let all = unread(queue, reader, at);
    take(queue, reader)?;
    let two = unread(queue, reader, at);
    take(queue, reader)?;
    let one = unread(queue, reader, at);
    take(queue, reader)?;
    Ok([all, two, one, unread(queue, reader, at)])
}

fn told_by<F: Family>(
    queue: &mut Queue<External<Addr<F>>, F>,
    at: [Prefix<F>; 3],
) -> Result<[[bool; 3]; 4], Memory> {
    let mut reader = queue.join_reader()?;
    told(queue, &mut reader, at)
}

fn told_by_new<F: Family>(alloc: Global, at: [Prefix<F>; 3]) -> Result<[[bool; 3]; 4], Memory> {
    let mut queue = Queue::new(alloc);
    let seen = told_by(&mut queue, at);
    drop(queue);
    seen
}

/// All three, then the first and the third, then the third, then none.
const TOLD: [[bool; 3]; 4] = [
    [true, true, true],
    [true, false, true],
    [false, false, true],
    [false, false, false],
];

#[test]
fn a_prepared_queue_tells_what_is_unread(rt: HostRuntime) -> Result<(), Fail> {
    let at = [
        prefix(0x0100_0000, 8),
        prefix(0x0200_0000, 8),
        prefix(0x0300_0000, 8),
    ];
    assert!(rt; told_by_new(rt.alloc(), at)? == TOLD);
    Ok(())
}

#[test]
fn a_prepared_queue_of_ipv6_tells_what_is_unread(rt: HostRuntime) -> Result<(), Fail> {
    let at = [prefix6(1, 64), prefix6(2, 64), prefix6(3, 64)];
    assert!(rt; told_by_new(rt.alloc(), at)? == TOLD);
    Ok(())
}
