//! Replays a file of events of a BGP router, and writes what happens to its routes; or judges what was written.
//!
//! [`replay`] is all that the program does: it reads the words of the command line (by the crate command_line), reads events from a
//! source, steps them one after another, and writes their output to a sink (`run`); or it does so with the events of a seed, and
//! writes totals behind them (`gen`); or it judges the journal that the source is (`check`); or it writes the event file that a
//! capture gives (`mrt`).
//! The parts are private: `stepping` steps one line in the router of the crate router, `stream` takes text that comes in pieces
//! line by line, `output` writes what a piece gave before the next one is read, and `run` goes on so to the end of a source.
//!
//! Whatever the source gives, and however it cuts its bytes, the output is an allowed one for the whole lines that were
//! read: the journal in it obeys the rules of consistency on every link, the live state is what the events alone make of
//! it, and after each `idle`, within the number of turns that it announced, no work is left and each link is what is decided
//! from scratch over the live state; all that of both networks, IPv4's and, from `local6` on, IPv6's. What each peer hears in it, by reading the octets that it is sent, is at every moment what
//! stands on its link `adv.J.S`; and a peer that asks for all of that again is told all of it once more, at the latest by the next
//! `idle`. What a route reflector passes on inside the AS is marked, and never comes to who announced it.
//!
//! For each text exactly one output is allowed: what is printed is a function of the events.
#![tactic(auto)]

mod captured;
mod commands;
mod generated;
mod laws;
mod output;
mod run;
mod status;
mod stepping;
mod stream;
mod totals;

ghost use Rattle.std.specs.Prelude.{◌≡◌, ◌≢◌, ◌⊎◌, ℕ, List, map, Some, None, false};
ghost use Rattle.std.specs.String.{string_bytes};
ghost use Rattle.std.specs.Io.KnownBytes.{Appends};
ghost use Rattle.edge_io.specs.Causes.{Rose};
ghost use Rattle.command_line.specs.Commands.{command_of};
ghost use Rattle.replay.specs.Commands.{reads_source, usage_line};
ghost use Rattle.replay.specs.Apart.{NetworksStayApart};
ghost use Rattle.replay.specs.Answers.{HasDone, HasRead, HasRefused, HasLawful, HasBroken, HasSoFar, HasFirst, HasFront, IsByText, IsUnfailing, CapturesAreAccepted, SeedsAreAccepted};
ghost use Rattle.replay.specs.One.{CallsAreOne, LiveIsOne, OutputIsOne, RefusalIsOne, TotalsAreOne};
ghost use Rattle.replay.specs.Reflection.{ReflectedRoutesAreMarked};
ghost use Rattle.replay.specs.Refreshes.{RefreshesAreServed, RefreshesEnd};
ghost use Rattle.command_line.specs.declared.words.Command.TheVariants.{Check};

use crate::commands::obey;
use crate::laws::{
    captures_are_accepted, networks_stay_apart, outputs_are_one, reflected_routes_are_marked,
    refreshes_are_served, seeds_are_accepted,
};
use command_line::read_command;
use edge_io::{Sink, Source};
use router_moments::first_moment_stands;
pub use status::Status;
use std::alloc::Global;

/// All that the program does: reads the words, and does what they ask for.
///
/// What the words ask for is told by the definition of the command: `run`, `gen SEED COUNT`, either with `--quiet`, `check`, or `mrt`,
/// with or without `--as4`. All other words, and those that ask for help, are answered by the usage line. `run` steps all whole lines of what was read and writes
/// their output before the next read; `gen` steps the events of a seed, and then writes totals; `check` reads all that it needs, and
/// then writes one line; `mrt` writes the lines of all whole records that were read before the next read. The first failure ends it.
pub fn replay<S: Source, K: Sink>(
    alloc: Global,
    words: &[String],
    source: &mut S,
    sink: &mut K,
) -> Status
    // Every line of the text was accepted, all of it was read, and the sink took exactly an allowed output; or every line of the
    // seed, and the sink took the totals, too; or the text is a lawful journal; or the sink took the text of all records of a capture.
    ensures ok { result ≡ Status.Ok → HasDone (command_of (map string_bytes words.now)) (S.left source.old) (K.taken sink.old) (K.taken sink.new) }
    ensures all_read { result ≡ Status.Ok → HasRead (command_of (map string_bytes words.now)) (S.left source.new) }

    // A line was refused, and the sink took an allowed output of the lines before it, and then that it was refused; or the
    // line is none of a journal; or a record of a capture was refused, and the sink took the lines of those before it, and that.
    ensures refused { result ≡ Status.Refused → HasRefused (command_of (map string_bytes words.now)) (S.left source.old) (K.taken sink.old) (K.taken sink.new) }

    // What `check` says of what `run` or `gen` wrote is that it is lawful, quiet or not, totals or none, and also where a line was refused.
    ensures lawful { (result ≡ Status.Ok) ⊎ (result ≡ Status.Refused) → HasLawful (command_of (map string_bytes words.now)) (S.left source.old) (K.taken sink.old) (K.taken sink.new) }

    // The journal breaks a rule, and the sink took which, and where. That is said by `check` alone.
    ensures by_check { result ≡ Status.Broken → command_of (map string_bytes words.now) ≡ Some Check }
    ensures broken { result ≡ Status.Broken → HasBroken (command_of (map string_bytes words.now)) (S.left source.old) (K.taken sink.old) (K.taken sink.new) }

    // The text alone decides between 0, 1 and 3; and it decides alone where no count of faults rose and there was memory.
    ensures by_text { (result ≡ Status.Ok) ⊎ (result ≡ Status.Broken) ⊎ (result ≡ Status.Refused) → IsByText (command_of (map string_bytes words.now)) (S.left source.old) result }
    ensures complete { ¬ Rose (S.faults source.old) (S.faults source.new) → ¬ Rose (K.faults sink.old) (K.faults sink.new) → IsUnfailing (command_of (map string_bytes words.now)) (S.left source.old) result }

    // No line of a seed is refused: `gen` ends with status 0, unless a write fails or there is no memory.
    ensures seeds { SeedsAreAccepted }

    // No line of what `mrt` writes with status 0 is refused: all that is said of `run` holds of a run over it.
    ensures captures { CapturesAreAccepted }

    // In each allowed output a peer that asks for all routes again (RFC 2918) is told them: as soon as its task `ref.J` has no work,
    // each route that it has was announced to it since; and after an idle that task has none.
    ensures refreshes { RefreshesAreServed }
    ensures refreshes_end { RefreshesEnd }

    // In each allowed output, behind an idle, a route of one internal peer goes to another one only where one of them is a client of this
    // route reflector, and marked (RFC 4456): the local ID stands in front of a CLUSTER_LIST that is one longer than received, and in
    // which it wasn't. No route goes back to the peer that it is from.
    ensures reflected { ReflectedRoutesAreMarked }

    // An event that names one family of addresses leaves each link of the other network as it is, and says nothing of it.
    ensures apart { NetworksStayApart }

    // For each text one output is allowed, quiet or not; of a text with a refused line, and of a seed with its totals, too; and one live
    // state is what the events of lines make of another. So two calls
    // over the same text that end alike, with all done, a line refused or a rule broken, have written the same.
    ensures one { OutputIsOne }
    ensures one_refused { RefusalIsOne }
    ensures one_totalled { TotalsAreOne }
    ensures one_live { LiveIsOne }
    ensures calls { CallsAreOne }

    // The words are no command, and the usage line was written.
    ensures usage { result ≡ Status.Usage → Appends (K.taken sink.old) (K.taken sink.new) usage_line }
    ensures command { command_of (map string_bytes words.now) ≢ None → result ≢ Status.Usage }
    ensures no_command { command_of (map string_bytes words.now) ≡ None → (result ≡ Status.Usage) ⊎ (result ≡ Status.WriteFault) ⊎ (result ≡ Status.Memory) }
    ensures unread { reads_source (command_of (map string_bytes words.now)) ≡ false → source.new ≡ source.old }

    // A read failed, and the sink took an allowed output of the lines that had ended in what was read; nothing of a check; the
    // lines of the whole records of a capture.
    ensures read_fault { result ≡ Status.ReadFault → Rose (S.faults source.old) (S.faults source.new) }
    ensures so_far { result ≡ Status.ReadFault → HasSoFar (command_of (map string_bytes words.now)) (S.left source.old) (S.left source.new) (K.taken sink.old) (K.taken sink.new) }

    // There was no memory, and the sink took an allowed output of some first lines, or the lines of some first records of a
    // capture; nothing of a check.
    ensures memory { result ≡ Status.Memory → HasFirst (command_of (map string_bytes words.now)) (S.left source.old) (K.taken sink.old) (K.taken sink.new) }

    // A write failed, and the sink took a front of what may be written.
    ensures write_fault { result ≡ Status.WriteFault → Rose (K.faults sink.old) (K.faults sink.new) }
    ensures front { result ≡ Status.WriteFault → HasFront (command_of (map string_bytes words.now)) (S.left source.old) (K.taken sink.old) (K.taken sink.new) }
{
    first_moment_stands();
    seeds_are_accepted();
    captures_are_accepted();
    refreshes_are_served();
    reflected_routes_are_marked();
    networks_stay_apart();
    outputs_are_one();
    let Ok(command) = read_command(alloc, words) else {
        return Status::Memory;
    };
    obey(alloc, command, source, sink)
}
