//! What is asked of a network: its parts, counts, and what holds a prefix up.

ghost use Rattle.std.specs.Prelude.{◌≡◌, true, IfOk, IsErr, IsSome, Some};
ghost use Rattle.std.specs.Option.{option_copied};
ghost use Rattle.hop_side.specs.Resolvers.{resolver_at};
ghost use Rattle.peer_side.specs.Peers.{chain_at};
ghost use Rattle.router_moments.specs.Moments.{bound_of, router_links};
ghost use Rattle.router_moments.specs.Scratch.{Tells};
ghost use Rattle.router_moments.specs.Stands.{CoreStands};
ghost use Rattle.router_moments.specs.Lookups.{IsCountOf};

use crate::hears::Hears;
use crate::router::Core;
use addr4::{Memory, Prefix};
use event_text::Declared;
use ext_int::ExtInt;
use in_chain::Chain;
use journal_text::{Link, Task};
use nexthop_resolver::{Metric, Resolver};
use rib_exit::RibExit;
use rib_tree::Tree;
use router_moments::the_first_task_tells;

impl<F: Hears> Core<F> {
    /// What was declared.
    pub fn declared(&self) -> &Declared<F>
        ensures { result.now ≡ self.now.moment.declared }
    {
        self.network.declared()
    }

    /// How many events were stepped.
    pub fn events(&self) -> u64
        ensures { result ≡ self.now.events }
    {
        self.events
    }

    /// The chain of a declared peer.
    pub fn chain(&self, number: u32) -> &Chain<F>
        requires { IsSome (chain_at number self.now.moment.chains) }
        ensures { Some result.now ≡ chain_at number self.now.moment.chains }
    {
        self.network.chain(number)
    }

    /// The tree of the interior routes.
    pub fn tree(&self) -> &Tree<F>
        ensures { result.now ≡ self.now.moment.tree }
    {
        self.network.tree()
    }

    /// The next hops of a peer's routes, which are known exactly where rows of its `filt.K` name them, with the metrics by
    /// which they are reached (RFC 4271, section 9.1.2.1). None exactly where no such peer is declared.
    pub fn resolver(&self, number: u32) -> Option<&Resolver<Metric, F>>
        ensures { option_copied result ≡ resolver_at number self.now.moment.hops }
    {
        self.network.resolver(number)
    }

    /// The external routes on their way to the forwarding table: their rows, and the next hops that these name, with the
    /// interior routes by which they are reached.
    pub fn external(&self) -> &RibExit<ExtInt<F>>
        ensures { result.now ≡ self.now.moment.rib }
    {
        self.network.external()
    }

    /// Whether a prefix is settled. The first task, in the order of an idle, whose work holds it up, which then has work; None
    /// exactly where none does, and then its rows in `best`, in `fib` and in each `adv.J.S` are what the live state alone asks
    /// for. Takes no memory, and looks at no other prefix than this one and those that hold a next hop of its routes.
    pub fn settled(&self, p: Prefix<F>) -> Option<Task>
        requires { CoreStands self.now }
        ensures { Tells self.now.moment p result }
    {
        the_first_task_tells();
        self.network.first_held(p, &self.contests)
    }

    /// How many rows a link has; None exactly where it isn't live. Memory for want of memory: each row of `filt.K` is judged.
    /// After want of memory the core answers nothing else.
    pub fn count(&self, link: Link) -> Result<Option<u128>, Memory>
        ensures rows { IfOk result (IsCountOf (router_links self.now.moment link)) }
        ensures stays { self.now.failed ≡ true → IsErr result }
    {
        if self.failed {
            return Err(Memory);
        }
        self.network.count(link, &self.contests)
    }

    /// How many turns an idle takes at most.
    pub fn bound(&self) -> Result<u128, Memory>
        ensures { IfOk result (λ bound. bound ≡ bound_of self.now.moment) }
    {
        self.network.bound()
    }
}
