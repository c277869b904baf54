//! Laws of printed lines: what the program prints of a lawful journal, `check` says is lawful.
//!
//! What is asked of a line that is printed stands in `specs/Printed`, over the network that says it (`Printing`: its family and its
//! declared peers): the numbers of its links are from 1, each number is in its range, addresses and prefixes are the family's, its
//! attributes are such that some message has room for them, and a route's sender is the peer of its number. Then the line is short
//! enough to be read, and is read as it was meant ([`printed_lines_are_short`], [`printed_lines_are_read`]), no two values of a
//! network have one text ([`values_are_told`]), and so the walk over the texts is the walk over the values ([`texts_are_walked`]).
//!
//! An output has lines of two networks, each with its family (`specs/FamilyLines`), and the entries of each family are a walk of
//! their own. Of its text, where both walks obey the rules, nothing is to be said but that it is lawful ([`printed_is_lawful`]).
//! Attributes that a peer said of a family are such as can be printed, and what a filter makes of them
//! ([`what_was_read_is_printable`], [`filtered_routes_are_printable`]); and so are the entries of what one change of rows causes,
//! where the rows are ([`falls_are_printed`]).
//!
//! What stands in tables and chains and can be printed is in `specs/Standing`: each row, live or lost, the numbers of the losses,
//! and the rules of filters. Then each row of each link of a chain or a tree can be printed, and so can what a fall or a turn
//! writes.
//!
//! For the proofs of the crates above, which know that their lines are such. Each law is a function that does nothing, whose
//! contract is the law.
#![tactic(auto)]

ghost use Rattle.journal_laws.specs.Laws.{ReadIsPrintable, FilteredIsPrintable, PrintedLinesAreShort, PrintedLinesAreRead, ValuesAreTold, TextsAreWalked, TextsTellWalks, PrintedIsLawful, RefusedIsLawful, LawfulEndsLawful, FallsArePrinted, ChangesArePrinted};

/// Attributes that a peer said in a message of prefixes of either family can be printed as that family's.
pub fn what_was_read_is_printable()
    ensures { ReadIsPrintable }
{}

/// What the incoming filter makes of attributes that can be printed is a route that can be printed: rules set numbers in their
/// ranges alone, and the route is from the peer.
pub fn filtered_routes_are_printable()
    ensures { FilteredIsPrintable }
{}

/// The entries of what one change causes can be printed, where the rows before it and after it can: they stand at its prefix,
/// on links of which each is written once.
pub fn falls_are_printed()
    ensures falls { FallsArePrinted }
    ensures changes { ChangesArePrinted }
{}

/// A printed line has at most 65,536 bytes and its LF.
pub fn printed_lines_are_short()
    ensures { PrintedLinesAreShort }
{}

/// A printed line is read as what it says: an entry as the entry, and each other line as one that says nothing of links.
pub fn printed_lines_are_read()
    ensures { PrintedLinesAreRead }
{}

/// No two values of a network have one text, where a peer is known by its number: in that of IPv6 too, whose addresses have colons
/// as what stands between the words of a row has.
pub fn values_are_told()
    ensures { ValuesAreTold }
{}

/// The walk over texts is the walk over values: it is lawful exactly where that is, and leads to the texts of the same links.
pub fn texts_are_walked()
    ensures leads { TextsAreWalked }
    ensures tells { TextsTellWalks }
{}

/// Of the text of lines of both networks, where the entries of each obey the rules (NSDI 2005, section 5.1), it is to be said that
/// it is lawful, whether the entries are printed or not, and also where a refused event ends it; so a run of `check` that answers
/// says it.
pub fn printed_is_lawful()
    ensures judged { PrintedIsLawful }
    ensures refused { RefusedIsLawful }
    ensures ends { LawfulEndsLawful }
{}
