//! Laws of what peers hear: the octets of the lines `out J` say to peer J what stands in `adv.J.S`.
//!
//! What a peer hears is a walk over lines (`Hears`, in `live_state`): it reads the octets that it gets as the neighbour that it is, and
//! its routes are what that makes of them (RFC 4271, sections 3.1, 4 and 9.1). `specs/Views` has the views of peers that have heard
//! exactly what they were sent; each step of the exits leads from these views to those after it ([`steps_are_heard`]), by its lines
//! alone. Of the lines of all other steps nobody hears anything ([`others_are_unheard`]), and walks join ([`what_is_heard`]): so the
//! router has only to put its steps together.
//!
//! `specs/Printable` has what stands in the exits and can be printed, and each step keeps it, and says lines that can be printed
//! ([`steps_are_printed`]). `specs/Served` has what a peer is told since it asked for all routes again (RFC 2918), which each step
//! keeps ([`refreshes_are_served`]).
//!
//! For the proofs of the crates above. Each law is a function that does nothing, whose contract is the law.
#![tactic(auto)]

ghost use Rattle.exit_laws.specs.Laws.{HearingJoins, HearingIsOne, HearingStays, NothingIsHeard, OthersAreUnheard, ChangesAreUnheard, HeardIsSent, BeginningIsHeard, EndIsHeard, TurnIsHeard, TurnIsHeardFrom, EditKeepsViews, PutKeepsViews, RefreshKeepsViews, ResendKeepsViews, ResendIsHeard, BeginningIsPrinted, EndIsPrinted, TurnIsPrinted, EditIsPrinted, RefreshIsPrinted, ResendIsPrinted, PutIsPrinted, JoinIsPrinted, TakeIsPrinted, PrintingStays, EmptyIsPrinted};
ghost use Rattle.exit_laws.specs.Served.{ServingBegins, ServingEnds, TurnServes, ResendServes, RefreshServes, EditServes, OthersServe, EndServes, BeginServes};

use bgp_wire::one_of_message_and_fault;

/// What is heard of some lines and then of others is heard of both; there is one thing alone to be heard of lines, whoever else
/// is declared later; and most lines say nothing to peers.
pub fn what_is_heard()
    ensures joins { HearingJoins }
    ensures one { HearingIsOne }
    ensures stays { HearingStays }
    ensures nothing { NothingIsHeard }
{
    one_of_message_and_fault();
}

/// Nobody hears anything by the lines of entries that lead the links of any other part of the router on, whatever the outgoing
/// links of the peers are, nor by those of the change of a row.
pub fn others_are_unheard()
    ensures regions { OthersAreUnheard }
    ensures changes { ChangesAreUnheard }
{}

/// What a peer has heard are the rows of its `adv.J.S`: where its session begins nothing, where it ends nothing is left, and a
/// turn of its exit tells it each change of them, in a message that it reads as that change and as nothing else. A refresh, and
/// the announcements of its walk, tell it nothing that it hasn't heard.
pub fn steps_are_heard()
    ensures sent { HeardIsSent }
    ensures begin { BeginningIsHeard }
    ensures end { EndIsHeard }
    ensures turn { TurnIsHeard }
    ensures turn_from { TurnIsHeardFrom }
    ensures edit { EditKeepsViews }
    ensures put { PutKeepsViews }
    ensures refresh { RefreshKeepsViews }
    ensures resend_keeps { ResendKeepsViews }
    ensures resend { ResendIsHeard }
{}

/// The lines of each step of the exits can be printed and read back, and so can what stands in them then, where the rows of
/// `best` can: what a peer reads of a message can be printed.
pub fn steps_are_printed()
    ensures begin { BeginningIsPrinted }
    ensures end { EndIsPrinted }
    ensures turn { TurnIsPrinted }
    ensures edit { EditIsPrinted }
    ensures refresh { RefreshIsPrinted }
    ensures resend { ResendIsPrinted }
    ensures put { PutIsPrinted }
    ensures join { JoinIsPrinted }
    ensures take { TakeIsPrinted }
    ensures stays { PrintingStays }
    ensures empty { EmptyIsPrinted }
{}

/// A peer that asks for all routes again (RFC 2918) is told each row that it was sent, since then: at any moment each is
/// announced in the lines since, or the walk of the refresh has yet to come to it, and so all are where no walk is on.
pub fn refreshes_are_served()
    ensures begins { ServingBegins }
    ensures ends { ServingEnds }
    ensures turn { TurnServes }
    ensures resend { ResendServes }
    ensures refresh { RefreshServes }
    ensures edit { EditServes }
    ensures others { OthersServe }
    ensures end { EndServes }
    ensures begin { BeginServes }
{}
