//! Laws of queues, for the proofs of the crates above. Each is a function that does nothing, whose contract is the law. Those
//! of one reader's changes are laws of changes in order, of `link_change`.

ghost use Rattle.fanout_queue.specs.Laws.{PutKeepsLeading, TakeKeepsLeading, JoinKeepsLeading, DropKeepsLeading, PutKeepsReaders, TakeKeepsReaders, JoinKeepsReaders, DropKeepsOthers, EachReaderLeads, PutKeepsRead, TakeKeepsOthers};

/// What each reader hasn't taken goes on to lead from the rows that it has to the best ones, whatever is called.
pub fn readers_keep_leading<R>()
    ensures put { PutKeepsLeading R }
    ensures take { TakeKeepsLeading R }
    ensures join { JoinKeepsLeading R }
    ensures drop { DropKeepsLeading R }
{}

/// A reader is live until it is dropped.
pub fn readers_stay_live<R>()
    ensures put { PutKeepsReaders R }
    ensures take { TakeKeepsReaders R }
    ensures join { JoinKeepsReaders R }
    ensures drop { DropKeepsOthers R }
{}

/// The rows that one reader has: a change that is put leaves them, and so does what another reader takes.
pub fn each_reader_has_its_rows<R>()
    ensures leads { EachReaderLeads R }
    ensures put { PutKeepsRead R }
    ensures others { TakeKeepsOthers R }
{}
