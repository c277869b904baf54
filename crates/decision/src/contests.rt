//! What is known of the branches at each prefix.

ghost use Rattle.std.specs.Prelude.{◌≡◌, ◌<◌, ℕ, Some, None, true, false, IfOk, OnOk, IsSome, is_some};
ghost use Rattle.std.specs.FinMap as tables;
ghost use Rattle.addr4.specs.Prefixes.{AddressPrefix};
ghost use Rattle.addr4.specs.Places.{key_of, IsNextRow};
ghost use Rattle.link_change.specs.Rows.{Candidates};
ghost use Rattle.decision.specs.Branches.{Decides, AllRows, best_rows};
ghost use Rattle.decision.specs.Contests.{Knows, KnowsBefore, Updated, winner_in, Counts, Moves, HasMove, IsNoted, CoversAt};

use crate::best::Best;
use crate::branches::Branches;
use crate::contest::{Mark, decide, moved};
use crate::lineup::Lineup;
use crate::winners::won_by;
use addr4::{Family, Memory, Place, Prefix, V4};
use bgp_attr::{Route, SharedAttrs};
use link_change::Change;
use nibble_trie::Trie;
use std::alloc::Global;
use std::marker::Model;

/// What is known of the branches at each prefix where one has a candidate: how many have one, the branch whose row is the best,
/// and where several have a row the candidates of all. Contracts see it as a finite map.
#[derive(Drop)]
pub struct Contests<F: Family = V4> {
    alloc: Global,
    marks: Trie<Mark, F>,
    lines: Trie<Lineup, F>,
}

impl<F: Family> Model for Contests<F> {
    ghost use Rattle.std.specs.FinMap.{FinMap};
    ghost use Rattle.std.specs.FinMap as tables;
    ghost use Rattle.addr4.specs.Prefixes.{prefix_cmp, address_prefix_code};
    ghost use Rattle.decision.specs.Contests.{Contest, contest_code, contests_of, AreMarked};
    ghost use Rattle.decision.specs.contracts.lineup.Lineup as lineup_row;

    ghost Value = { FinMap prefix_cmp Contest };

    ghost coded = { tables.code address_prefix_code (contest_code lineup_row.the_row.coded) };

    ghost view = { λ c. contests_of c.marks.rows c.lines.rows };

    ghost invariant = { λ c. AreMarked c.marks.rows c.lines.rows };
}

impl<F: Family> Contests<F> {
    /// No branch has a row, nor a candidate. Takes no memory.
    pub fn new(alloc: Global) -> Contests<F>
        ensures known { (rows : AllRows) → ((b : ℕ) (q : AddressPrefix) → b < 65 → rows b q ≡ None) → Knows result rows }
        ensures counts { (candidates : ℕ → Candidates) → ((b : ℕ) (q : AddressPrefix) → b < 65 → candidates b q ≡ false) → Counts result candidates }
    {
        Contests {
            alloc,
            marks: Trie::new(alloc),
            lines: Trie::new(alloc),
        }
    }

    /// A change of one branch's rows, as it goes on below: the change of the best route at its prefix. The branches are lent as
    /// they are after the change; another one is asked where it alone has a row there, and the one whose row is sent again. None
    /// comes exactly where the best route stays the same, Memory only for want of memory.
    pub fn take_in<B: Branches<F>>(
        &mut self,
        branch: u8,
        change: Change<Route<SharedAttrs<F>>, Prefix<F>>,
        all: &B,
    ) -> Result<Option<Change<Route<SharedAttrs<F>>, Prefix<F>>>, Memory>
        requires small { branch < 65 }
        requires known { KnowsBefore branch self.old (B.rows all.now) change }
        requires there { IsSome (tables.get self.old change.prefix) }
        ensures decides { IfOk result (Decides branch (B.rows all.now) change) }
        ensures known { OnOk result (Knows self.new (B.rows all.now)) }
        ensures counts { OnOk result ((candidates : ℕ → Candidates) → Counts self.old candidates → Counts self.new candidates) }
    {
        let Some(mark) = self.marks.get_mut(change.prefix) else {
            unreachable!()
        };
        let Some(winners) = decide(self.alloc, mark, &mut self.lines, branch, &change, all)? else {
            return Ok(Some(change));
        };
        let sent = won_by(winners, branch, change, all)?;
        Ok(sent)
    }

    /// The best route at a prefix; none where no branch has one. The branch whose row it is is asked for it, and no other.
    pub fn asked<B: Branches<F>>(
        &self,
        all: &B,
        prefix: &Prefix<F>,
    ) -> Result<Option<Route<SharedAttrs<F>>>, Memory>
        requires { Knows self.now (B.rows all.now) }
        ensures { IfOk result (λ row. row ≡ best_rows (B.rows all.now) prefix.now) }
    {
        match self.winner(prefix) {
            None => Ok(None),
            Some(number) => all.asked(number, prefix),
        }
    }

    /// Whether there is a best route at a prefix. Takes no memory.
    pub fn has<B: Branches<F>>(&self, all: &B, prefix: &Prefix<F>) -> bool
        requires { Knows self.now (B.rows all.now) }
        ensures { result ≡ is_some (best_rows (B.rows all.now) prefix.now) }
    {
        match self.winner(prefix) {
            None => false,
            Some(number) => all.has(number, prefix),
        }
    }

    /// A candidate of a branch comes at a prefix, or goes. What was known of rows stays known, where a prefix that loses its last
    /// candidate has none. Memory only for want of memory.
    pub fn note(&mut self, prefix: Prefix<F>, comes: bool) -> Result<(), Memory>
        requires { HasMove prefix comes self.old }
        ensures counts { OnOk result ((branch : ℕ) (before now : ℕ → Candidates) → Moves branch prefix comes before now → Counts self.old before → Counts self.new now) }
        ensures known { OnOk result ((rows : AllRows) (candidates : ℕ → Candidates) → Counts self.new candidates → CoversAt candidates rows prefix → Knows self.old rows → Knows self.new rows) }
    {
        if comes {
            return self.come(prefix);
        }
        self.go(prefix);
        Ok(())
    }

    /// The link `best` over the branches that are known.
    pub fn best<'a, B: Branches<F>>(&'a self, all: &'a B) -> Best<'a, B, F>
        requires known { Knows self.now (B.rows all.now) }
        requires counted { Counts self.now (B.candidates all.now) }
        ensures { result.all.now ≡ all.now }
    {
        Best {
            all,
            contests: self,
        }
    }

    /// The least prefix beyond a place at which something is known.
    pub(crate) fn next_kept(&self, after: &Place<Prefix<F>>) -> Option<Prefix<F>>
        ensures { IsNextRow (tables.get self.now) (key_of after.now) result }
    {
        match self.marks.next_row(*after) {
            None => None,
            Some(row) => Some(row.0),
        }
    }

    /// The branch whose row is the best.
    pub(crate) fn winner(&self, prefix: &Prefix<F>) -> Option<u8>
        ensures { result ≡ winner_in (tables.get self.now prefix.now) }
    {
        match self.marks.get(*prefix) {
            None => None,
            Some(mark) => mark.winner,
        }
    }

    // A candidate comes at a prefix. Whether it is the first one there is seen by the descent that puts its mark.
    fn come(&mut self, prefix: Prefix<F>) -> Result<(), Memory>
        requires { HasMove prefix true self.old }
        ensures { OnOk result (IsNoted prefix true self.old self.new) }
    {
        let first = Mark {
            walkers: 1,
            winner: None,
        };
        match self.marks.enter(prefix, first) {
            Err(_) => Err(Memory),
            Ok(None) => Ok(()),
            Ok(Some((key, _))) => {
                let mark = self.marks.value_near(key, prefix);
                mark.walkers = moved(mark.walkers, true);
                Ok(())
            }
        }
    }

    // A candidate at a prefix goes.
    fn go(&mut self, prefix: Prefix<F>)
        requires { HasMove prefix false self.old }
        ensures { IsNoted prefix false self.old self.new }
    {
        let mark = self.marks.value_mut(prefix);
        mark.walkers = moved(mark.walkers, false);
        if mark.walkers == 0 {
            self.forget(prefix);
        }
    }

    // The last candidate at a prefix has gone.
    fn forget(&mut self, prefix: Prefix<F>)
        ensures { Updated self.old self.new prefix None }
    {
        self.lines.remove(prefix);
        self.marks.remove(prefix);
    }
}
