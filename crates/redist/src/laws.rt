//! Laws of redistribution, for the proofs of the crates above. Each is a function that does nothing, whose contract is the law.

ghost use Rattle.redist.specs.Laws.{HasWhatIsPut, OthersStayPut, NothingOfNothing, NothingAtFirst, OnlyOwnRoutes};

/// A set has what was put into it, and of all else what it had.
pub fn a_set_has_what_is_put()
    ensures put { HasWhatIsPut }
    ensures others { OthersStayPut }
{}

/// Nothing is redistributed at first, and never where no interior row is.
pub fn nothing_at_first()
    ensures none { NothingOfNothing }
    ensures first { NothingAtFirst }
{}

/// Every row below is the one route of this speaker's own.
pub fn only_own_routes()
    ensures { OnlyOwnRoutes }
{}
