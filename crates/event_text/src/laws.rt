//! Laws of the event language. Each is a function that does nothing, whose contract is the law.

ghost use Rattle.event_text.specs.FileLaws.{Ipv4LinesStay, Ipv4LinesMayStay};

/// A line that is read without words of IPv6 says the same in a file that may have them, and may stand where it may.
pub fn lines_of_ipv4_stay()
    ensures read { Ipv4LinesStay }
    ensures admitted { Ipv4LinesMayStay }
{}
