//! Laws of filters, for the proofs of the crates above. Each is a function that does nothing, whose contract is the
//! law.

ghost use Rattle.filter_bank.specs.Laws.{ExactUnlessHeldUp, EditKeepsRows, WalkLeads, FilteredKeepsAttrs};
ghost use Rattle.filter_bank.specs.OutLaws.{NothingOfNothing, NothingAtFirst, OnlyWhatMayGo, OnlyFormsOfRows};

/// Where no walk holds up a prefix, the row below is what the rules of the latest edit make of the row above.
pub fn exact_unless_held_up()
    ensures { ExactUnlessHeldUp }
{}

/// An edit changes no row below.
pub fn an_edit_keeps_the_rows()
    ensures { EditKeepsRows }
{}

/// What a turn of the walk sends leads from the rows below before it to those after it.
pub fn a_walk_leads()
    ensures { WalkLeads }
{}

/// Whatever the rules, a row below has the attributes of the row above, is from the peer, and has no interior metric yet.
pub fn filtered_keeps_attrs()
    ensures { FilteredKeepsAttrs }
{}

/// A session begins with nothing sent.
pub fn nothing_is_sent_at_first()
    ensures none { NothingOfNothing }
    ensures first { NothingAtFirst }
{}

/// Whatever the rules, no route goes back to its peer, or from an internal peer to another of which neither is a client, and only
/// prefixes of hosts go out; and what goes out is the form of a route with the attributes and the source of the row above.
pub fn what_goes_out()
    ensures may_go { OnlyWhatMayGo }
    ensures form { OnlyFormsOfRows }
{}
