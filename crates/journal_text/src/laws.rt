//! Laws of links and walks, for the proofs of the crates above. Each is a function that does nothing, whose contract is
//! the law.

ghost use Rattle.journal_text.specs.Walk.{LeadsOn};
ghost use Rattle.journal_text.specs.Laws.{ChangesLead, EachLinkIsItself, LinesOfNoFamily, LinksAreSetInEitherOrder, EntriesJoin, LinksReadBack, LinksReadBackIn, ReadLinksAreNamed, ReadLinksAreNamedIn, SameLinksAreEqual, TasksReadBack, TasksReadBackIn};

use crate::valued::Valued;
use addr4::Family;

/// Each link is itself, and links that are the same are equal.
pub fn same_links()
    ensures itself { EachLinkIsItself }
    ensures equal { SameLinksAreEqual }
{}

/// Of two links either may be set first.
pub fn links_are_set_in_either_order<V>()
    ensures { LinksAreSetInEitherOrder V }
{}

/// Walks that lead one from the other may be put together.
pub fn journals_join<V>()
    ensures { LeadsOn V }
{}

/// The entry of a lawful change of rows leads on (NSDI 2005, section 5.1).
pub fn changes_lead<F: Family, R: Valued<F>>()
    ensures { ChangesLead R.value }
{}

/// The name of a link whose numbers are from 1 and below 2^32 is read back, with its network, so no two of
/// them have one name.
pub fn link_names_are_read_back()
    ensures within { LinksReadBack }
    ensures either { LinksReadBackIn }
{}

/// The name of a task whose numbers are from 1 and below 2^32 is read back, with its network, so no two of
/// them have one name.
pub fn task_names_are_read_back()
    ensures within { TasksReadBack }
    ensures either { TasksReadBackIn }
{}

/// The numbers in a name that is read are from 1 and below 2^32.
pub fn read_links_are_named()
    ensures within { ReadLinksAreNamed }
    ensures either { ReadLinksAreNamedIn }
{}

/// A journal has the entries that were appended to it, in their order.
pub fn entries_are_appended()
    ensures { EntriesJoin }
{}

/// A line that tells of no link, prefix or address has one text in both networks.
pub fn some_lines_are_of_no_family()
    ensures { LinesOfNoFamily }
{}
