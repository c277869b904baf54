//! Attributes as they come, and what is asked of them.

ghost use Rattle.std.specs.Prelude.{◌≡◌, ◌^◌, ◌<◌, IfSome, option_map};
ghost use Rattle.bgp_wire.specs.Attributes.{attribute_of, attribute_at, size_at};

pub(crate) const ORIGIN: u8 = 1;

pub(crate) const AS_PATH: u8 = 2;

pub(crate) const NEXT_HOP: u8 = 3;

pub(crate) const MULTI_EXIT_DISC: u8 = 4;

pub(crate) const LOCAL_PREF: u8 = 5;

pub(crate) const ATOMIC_AGGREGATE: u8 = 6;

pub(crate) const AGGREGATOR: u8 = 7;

pub(crate) const ORIGINATOR_ID: u8 = 9;

pub(crate) const CLUSTER_LIST: u8 = 10;

pub(crate) const MP_REACH_NLRI: u8 = 14;

pub(crate) const MP_UNREACH_NLRI: u8 = 15;

pub(crate) const AS4_PATH: u8 = 17;

pub(crate) const AS4_AGGREGATOR: u8 = 18;

/// An attribute as it came (RFC 4271, section 4.3).
#[derive(Clone, Copy)]
pub(crate) struct RawAttribute<'a> {
    pub(crate) flags: u8,
    /// The attribute type code.
    pub(crate) kind: u8,
    pub(crate) value: &'a [u8],
    /// All octets, from the flags to the end of the value.
    pub(crate) octets: &'a [u8],
}

/// The length field of the first attribute, and how many octets stand before its value.
#[tactic(auto, unfolding(crate::specs::Attributes::size_at))]
fn size_at(bytes: &[u8]) -> Option<(usize, usize)>
    ensures value { result ≡ size_at bytes.now }
    ensures small { IfSome result (λ x. (x.0 < 2 ^ 16) × (2 < x.1) × (x.1 < 5)) }
{
    match bytes {
        [] => None,
        [_] => None,
        [_, _] => None,
        [flags, _, high] => {
            if *flags / 16 % 2 == 1 {
                None
            } else {
                Some((usize::from(*high), 3))
            }
        }
        [flags, _, high, low, ..] => {
            if *flags / 16 % 2 == 1 {
                Some((usize::from(*high) * 256 + usize::from(*low), 4))
            } else {
                Some((usize::from(*high), 3))
            }
        }
    }
}

/// The first attribute, and what follows it; none where it runs beyond the end.
pub(crate) fn read_attribute(bytes: &[u8]) -> Option<(RawAttribute<'_>, &[u8])>
    ensures { option_map (λ x. (attribute_of x.0, x.1.now)) result ≡ attribute_at bytes.now }
{
    let (size, header) = match size_at(bytes) {
        None => return None,
        Some(found) => found,
    };
    if bytes.len() < header + size {
        return None;
    }
    let (octets, rest) = bytes.split_at(header + size);
    let value = &octets[header..];
    Some((
        RawAttribute {
            flags: bytes[0],
            kind: bytes[1],
            value,
            octets,
        },
        rest,
    ))
}

/// How many octets the value of a type may have.
#[derive(Clone, Copy)]
pub(crate) enum Size {
    /// Any number.
    Any,
    /// So many.
    Fixed(usize),
    /// Four, or a multiple of four.
    Fours,
}

/// What is asked of a recognized type.
#[derive(Clone, Copy)]
pub(crate) struct TypeRule {
    pub(crate) optional: bool,
    pub(crate) transitive: bool,
    pub(crate) size: Size,
}

/// What becomes of an attribute.
#[derive(Clone, Copy)]
pub(crate) enum Verdict {
    Keep,
    /// The attribute is taken as not there.
    Discard,
    /// The whole UPDATE withdraws its prefixes (RFC 7606, section 2).
    Withdraw,
}

impl Verdict {
    ghost use Rattle.bgp_wire.specs.Found.{is_withdraw};

    pub(crate) fn is_withdraw(self) -> bool
        ensures { result ≡ is_withdraw self }
    {
        match self {
            Verdict::Keep | Verdict::Discard => false,
            Verdict::Withdraw => true,
        }
    }
}
