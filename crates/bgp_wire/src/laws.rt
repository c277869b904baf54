//! What holds of all octets.

ghost use Rattle.std.specs.Prelude.{◌≡◌, Bool, List, Some, ℕ};
ghost use Rattle.bgp_attr.specs.declared.speaker.Profile.{Profile};
ghost use Rattle.bgp_wire.specs.Updates.{fault};
ghost use Rattle.bgp_wire.specs.Grammar.{EachHasOne};
ghost use Rattle.bgp_wire.specs.Notices.{FitsMessage};
ghost use Rattle.bgp_wire.specs.declared.notice.Notice.{Notice};

/// Each list of octets is one message, or has a first fault, and not both.
pub fn one_of_message_and_fault()
    ensures { EachHasOne }
{}

/// The NOTIFICATION that answers a fault fits into a message.
pub fn notices_fit()
    ensures { (p : Profile) (external : Bool) (bytes : List ℕ) (n : Notice) → fault p external bytes ≡ Some n → FitsMessage n }
{}
