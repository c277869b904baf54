//! Laws of BGP messages: what is written is read as it was.
//!
//! What octets are, and the one spelling of a message, is said in the `specs/` of `bgp_wire`. An UPDATE of one prefix that a
//! peer can read (`IsReadable`), and that fits into a message, is read from its spelling as it was
//! ([`what_was_read_is_written_and_read_again`], [`announcements_are_read`], [`withdrawals_are_read`]). A path stays such as can
//! be read where an AS is put in front.
#![tactic(auto)]

ghost use Rattle.std.specs.Prelude.{◌≡◌, ◌+◌, ◌<◌, ◌≤◌, ◌^◌, All, Bool, false, List, ℕ};
ghost use Rattle.addr4.specs.Prefixes.{AddressPrefix};
ghost use Rattle.bgp_attr.specs.Attributes.{Attrs};
ghost use Rattle.bgp_attr.specs.declared.speaker.Profile.{Profile};
ghost use Rattle.bgp_wire.specs.declared.message.Update.{Update};
ghost use Rattle.bgp_wire.specs.declared.message.Message.TheVariants as messages;
ghost use Rattle.bgp_wire.specs.Grammar.{Reads};
ghost use Rattle.bgp_attr.specs.declared.path.Segment.{Segment};
ghost use Rattle.bgp_attr.specs.Paths.{times_in_front};
ghost use Rattle.bgp_wire.specs.Paths.{width_of};
ghost use Rattle.bgp_wire.specs.Spelling.{FitsAttrs, update_octets};
ghost use Rattle.bgp_wire.specs.Prefixes.{octets_for};
ghost use Rattle.bgp_wire.specs.Lengths.{attributes_length, announcement_length};
ghost use Rattle.addr4.specs.Families.{bits_of, IsPrefixOf};
ghost use Rattle.bgp_wire.specs.Said.{Said, nothing_said};
ghost use Rattle.bgp_wire.specs.Readable.{IsReadableSegment, IsReadable, IsReadableUpdate, AreOctets, HasOnePrefix, Speaks, said_in, withdrawing, withdrawal, announcing, announcement};

/// What a peer said in an UPDATE of one prefix, a peer that is as external reads in its one spelling as it was said: the
/// spelling has at most 4,096 octets too.
pub fn what_was_read_is_written_and_read_again()
    ensures { (p : Profile) (external : Bool) (v6 : Bool) (bytes : List ℕ) (s : Said) → AreOctets bytes → Reads p external bytes (messages.Update (said_in v6 s)) → HasOnePrefix s
        → Reads p external (update_octets v6 p.as4 s) (messages.Update (said_in v6 s)) }
{}

/// What a peer said in an UPDATE, of either family, is such that it can be said again.
pub fn what_was_read_is_readable()
    ensures { (p : Profile) (external : Bool) (bytes : List ℕ) (u : Update) → AreOctets bytes → Reads p external bytes (messages.Update u) → IsReadableUpdate p external u }
{}

/// Where IPv6 isn't spoken, an UPDATE says nothing of it.
pub fn nothing_is_said_of_ipv6_where_it_is_not_spoken()
    ensures { (p : Profile) (external : Bool) (bytes : List ℕ) (u : Update) → p.v6 ≡ false → Reads p external bytes (messages.Update u) → u.second ≡ nothing_said }
{}

/// Each withdrawal of one prefix is read as it is written, and says nothing of the other family.
pub fn withdrawals_are_read()
    ensures { (p : Profile) (external : Bool) (v6 : Bool) (n : AddressPrefix) → Speaks p v6 → IsPrefixOf v6 n → Reads p external (update_octets v6 p.as4 (withdrawing n)) (messages.Update (withdrawal v6 n)) }
{}

/// Each announcement of one prefix that isn't too long is read as it is written, and says nothing of the other family.
pub fn announcements_are_read()
    ensures { (p : Profile) (external : Bool) (v6 : Bool) (n : AddressPrefix) (a : Attrs) → Speaks p v6 → IsPrefixOf v6 n → IsReadable v6 p external a → announcement_length v6 p.as4 n a ≤ 4096
        → Reads p external (update_octets v6 p.as4 (announcing n a)) (messages.Update (announcement v6 n a)) }
{}

/// An announcement of one prefix has 24 octets, those of the prefix and those of the attributes.
pub fn announcements_are_so_long()
    ensures { (v6 as4 : Bool) (n : AddressPrefix) (a : Attrs) → n.length ≤ bits_of v6 → announcement_length v6 as4 n a ≡ 24 + attributes_length v6 as4 a + octets_for n.length }
{}

/// What can be read from an external peer can be read from an internal one.
pub fn internal_peers_read_as_much()
    ensures { (v6 : Bool) (p : Profile) (external : Bool) (a : Attrs) → IsReadable v6 p external a → IsReadable v6 p false a }
{}

/// What a peer can read can be written.
pub fn what_is_readable_fits()
    ensures { (v6 : Bool) (p : Profile) (external : Bool) (a : Attrs) → IsReadable v6 p external a → FitsAttrs p.as4 a }
{}

/// A path stays readable where an AS is put in front.
pub fn prepended_paths_are_readable()
    ensures { (as4 : Bool) (n asn : ℕ) (path : List Segment) → asn < 256 ^ width_of as4 → All (IsReadableSegment as4) path → All (IsReadableSegment as4) (times_in_front n asn path) }
{}
