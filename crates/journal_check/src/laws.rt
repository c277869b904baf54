//! Laws of the judge. Each is a function that does nothing, whose contract is the law.

ghost use Rattle.journal_check.specs.Laws.{OneAnswer, PrintedLinesAreReadBack};

/// What the program prints is read as it was meant: an entry as the entry, with the texts of its values, and each other
/// line as one that says nothing of links.
pub fn printed_lines_are_read_back()
    ensures { PrintedLinesAreReadBack }
{}

/// Of the lines of a journal one thing alone is to be said.
pub fn there_is_one_answer()
    ensures { OneAnswer }
{}
