//! Writing the text of a seed, piece by piece.

ghost use Rattle.std.specs.Prelude.{◌≡◌, ◌++◌, ◌∷◌, [], ◌<◌, length, IfOk, OnOk, OnErr, true, false};
ghost use Rattle.event_gen.specs.Lines.{event_line, text};

use crate::drawn::Drawn;
use crate::draws::{draw_four, event_of};
use crate::lines::push_event;
use addr4::Memory;
use std::alloc::Global;
use std::marker::Model;

/// This speaker, four peers, the route to them, and four sessions.
const OPENING: &[u8] =
    b"local 65000 192.0.2.254 192.0.2.254\npeer 1 65001 192.0.2.1 192.0.2.1\npeer 2 65002 192.0.2.2 192.0.2.2\npeer 3 65000 192.0.2.3 192.0.2.3\npeer 4 65001 192.0.2.4 192.0.2.4\nroute add connected 192.0.2.0/24 direct eth0 1\nup 1\nup 2\nup 3\nup 4\n";

/// Which part of the text comes next.
#[derive(Clone, Copy, PartialEq, Eq)]
pub enum Part {
    /// The lines that don't depend on the seed.
    Opening,
    /// An event, or the last line.
    Events,
    /// Nothing.
    Over,
}

/// Writes the text of a seed. Contracts see the text that is left.
#[derive(Drop)]
pub struct Generator {
    alloc: Global,
    part: Part,
    /// How many events are left.
    events: u32,
    /// The state from which they are drawn.
    state: u64,
}

impl Model for Generator {
    ghost use Rattle.std.specs.Prelude.{List, ℕ};
    ghost use Rattle.event_gen.specs.Lines.{text_left};

    ghost Value = { List ℕ };

    ghost view = { λ g. text_left g.part g.events g.state };
}

impl Generator {
    /// The text of a seed with so many events, whose draws begin at the seed. Takes no memory.
    #[tactic(auto, unfolding(crate::specs::Lines::text_left))]
    pub fn new(alloc: Global, seed: u64, count: u32) -> Generator
        ensures { result ≡ text seed count }
    {
        Generator {
            alloc,
            part: Part::Opening,
            events: count,
            state: seed,
        }
    }

    /// Writes the next piece behind what is there: the lines of the opening, or one line. Answers whether there was one. For
    /// want of memory nothing is written, and the same piece comes next.
    pub fn write_next(&mut self, out: &mut Vec<u8>) -> Result<bool, Memory>
        ensures whole { out.new.items ++ self.new ≡ out.old.items ++ self.old }
        ensures some { IfOk result (λ more. more ≡ true → length out.old.items < length out.new.items) }
        ensures over { IfOk result (λ more. more ≡ false → (self.new ≡ []) × (out.new.items ≡ out.old.items)) }
        ensures kept { OnErr result (out.new.items ≡ out.old.items) }
    {
        match self.part {
            Part::Opening => {
                out.extend_from_slice(OPENING)?;
                self.part = Part::Events;
                Ok(true)
            }
            Part::Events => {
                if self.events == 0 {
                    write_line(self.alloc, out, Drawn::Idle)?;
                    self.part = Part::Over;
                    return Ok(true);
                }
                let (draws, state) = draw_four(self.state);
                write_line(self.alloc, out, event_of(draws))?;
                self.events -= 1;
                self.state = state;
                Ok(true)
            }
            Part::Over => Ok(false),
        }
    }
}

/// Writes an event's line and its end. For want of memory nothing is written.
fn write_line(alloc: Global, out: &mut Vec<u8>, event: Drawn) -> Result<(), Memory>
    ensures written { OnOk result (out.new.items ≡ out.old.items ++ (event_line event ++ 10 ∷ [])) }
    ensures kept { OnErr result (out.new.items ≡ out.old.items) }
{
    let mut line = Vec::new(alloc);
    push_event(alloc, &mut line, event)?;
    line.push(b'\n')?;
    out.extend_from_slice(line.as_slice())?;
    Ok(())
}
