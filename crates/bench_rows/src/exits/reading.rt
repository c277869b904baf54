//! Changes that are put into a queue, and taken by readers of different speeds.

ghost use Rattle.std.specs.Prelude.{◌≡◌, IfOk, OnOk, IsSome};
ghost use Rattle.std.specs.FinMap as map;
ghost use Rattle.fanout_queue.specs.Queues.{KeepsReaders};
ghost use Rattle.bench_rows.specs.Live.{AreLive};

use crate::exits::prefix_at;
use crate::measured::Measured;
use addr4::{Addr, Memory};
use fanout_queue::{Queue, Reader};
use link_change::Change;
use rib_route::External;
use std::alloc::Global;

/// How many readers there are.
const READERS: u64 = 64;

/// How many speeds they have: one reader in eight takes each change when it is put, one in eight each second turn, and so on.
const SPEEDS: u64 = 8;

fn join_all(alloc: Global, queue: &mut Queue<External>) -> Result<Vec<Reader>, Memory>
    ensures { IfOk result (λ readers. AreLive queue.new readers.items) }
{
    let mut readers = Vec::new(alloc);
    for _ in 0..READERS {
        let reader = queue.join_reader()?;
        readers.push(reader)?;
    }
    Ok(readers)
}

/// A reader takes a change, if it has one to take.
fn take(
    queue: &mut Queue<External>,
    reader: &mut Reader,
    measured: &mut Measured,
) -> Result<(), Memory>
    requires { IsSome (map.get queue.old reader.old) }
    ensures same { OnOk result (reader.new ≡ reader.old) }
    ensures stay { OnOk result (KeepsReaders queue.old queue.new) }
{
    if let Some(change) = queue.take(reader)? {
        measured.add(u64::from(change.prefix.address().number()));
    }
    Ok(())
}

/// Each reader whose turn it is takes a change: of the first speed at each step, of the second at each second one, and so on.
fn take_turns(
    queue: &mut Queue<External>,
    readers: &mut [Reader],
    step: u64,
    measured: &mut Measured,
) -> Result<(), Memory>
    requires { AreLive queue.old readers.old }
    ensures same { OnOk result (readers.new ≡ readers.old) }
    ensures live { OnOk result (AreLive queue.new readers.new) }
{
    for index in 0..readers.len() {
        if step % (index as u64 % SPEEDS + 1) == 0 {
            take(queue, &mut readers[index], measured)?;
        }
    }
    Ok(())
}

/// A change at the prefix of each step.
fn put(queue: &mut Queue<External>, step: u64) -> Result<(), Memory>
    ensures { OnOk result (KeepsReaders queue.old queue.new) }
{
    let Some(prefix) = prefix_at(step) else {
        return Err(Memory);
    };
    let row = External {
        internal: step % 2 == 0,
        next_hop: Addr::new(0xc000_0201),
    };
    queue.put(Change {
        prefix,
        before: None,
        after: Some(row),
    })
}

/// So many changes come, and then as many turns in which all readers take one.
fn feed(
    queue: &mut Queue<External>,
    readers: &mut [Reader],
    changes: u64,
) -> Result<Measured, Memory>
    requires { AreLive queue.old readers.old }
{
    let mut measured = Measured { count: 0, sum: 0 };
    for step in 0..changes {
        put(queue, step)?;
        take_turns(queue, readers, step, &mut measured)?;
    }
    for _ in 0..changes {
        take_turns(queue, readers, 0, &mut measured)?;
    }
    Ok(measured)
}

fn feed_all(alloc: Global, queue: &mut Queue<External>, changes: u64) -> Result<Measured, Memory> {
    let mut readers = join_all(alloc, queue)?;
    feed(queue, readers.as_mut_slice(), changes)
}

/// The readers of a new queue take so many changes.
pub(crate) fn run(alloc: Global, changes: u64) -> Result<Measured, Memory> {
    let mut queue = Queue::new(alloc);
    feed_all(alloc, &mut queue, changes)
}
