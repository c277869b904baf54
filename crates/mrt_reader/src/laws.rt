//! Laws of the texts of files, for who writes and runs them: functions that do nothing, whose contracts are the laws.

ghost use Rattle.mrt_reader.specs.Files.{TextsAreOne};
ghost use Rattle.mrt_reader.specs.Order.{FilesAreOpened, LinesAreInOrder, LinesAreFew};

/// A file has one text, and is refused at one record, by one code, or not at all.
pub fn texts_are_one()
    ensures { TextsAreOne }
{}

/// A file without lines, or one that begins with this speaker, behind `as4` where AS numbers have four octets.
pub fn files_are_opened()
    ensures { FilesAreOpened }
{}

/// A file of so many records has not more lines than three for each, and three.
pub fn lines_are_few()
    ensures { LinesAreFew }
{}

/// Each line that records give stands where it may: this speaker is declared first and once, a peer before its sessions, with
/// a number and an address of its own, and a message of bytes comes within a session.
pub fn lines_are_in_order()
    ensures { LinesAreInOrder }
{}
