//! Whether the task `ext` has work, and how many next hops are known.

ghost use Rattle.std.specs.Prelude.{◌≡◌, option_map};
ghost use Rattle.nexthop_resolver.specs.Kept.{external_hop};
ghost use Rattle.rib_exit.specs.Exits.{ext_rows, has_ext_work, ext_lags, known_in};

use crate::exit::RibExit;
use addr4::{Addr, Prefix, Texts};
use ext_int::ExtInt;

impl<F: Texts> RibExit<ExtInt<F>> {
    /// Whether the task has work: a walk is on, a next hop is stale, or a fresh answer isn't in force.
    pub fn busy(&self) -> bool
        ensures { result ≡ has_ext_work self.now }
    {
        self.forwarding.busy()
    }

    /// Whether the task holds up a prefix: the next hop of the row of `ext` there, if there is one, is stale, or its fresh answer
    /// isn't in force there. Takes no memory.
    pub fn holds_up(&self, hop: Option<Addr<F>>, p: Prefix<F>) -> bool
        requires { hop ≡ option_map external_hop (ext_rows self.now p) }
        ensures { result ≡ ext_lags self.now p }
    {
        self.forwarding.holds_up(hop, p)
    }

    /// How many next hops are known.
    pub fn known(&self) -> u128
        ensures { result ≡ known_in self.now }
    {
        self.forwarding.known()
    }
}
