//! A law of the text, for who reads it: a function that does nothing, whose contract is the law.

ghost use Rattle.event_gen.specs.Readings.{LinesAreRead};

/// Each line of a seed's text, in which AS numbers have two octets, is read as the event that it is, so none is refused for its
/// bytes or its words.
pub fn lines_are_read()
    ensures { LinesAreRead }
{}
