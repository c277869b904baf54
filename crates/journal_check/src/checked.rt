//! What is known of a journal.

/// What is known of a journal so far.
#[derive(Clone, Copy, PartialEq, Eq)]
pub enum Checked {
    /// All lines are a journal's, and break no rule.
    Lawful,
    /// This line, counted from 1, is the first that breaks a rule, and this is the rule (NSDI 2005, section 5.1): 1, a
    /// change is lawful on the link's rows; 2, a lookup is answered by them; 3, links begin, end and are welded in order.
    Broken(u64, u8),
    /// This line, counted from 1, is the first that isn't a line of a journal.
    NotAJournal(u64),
}
