//! What was read, as it is sent.

ghost use Rattle.std.specs.Prelude.{◌≡◌, ◌||◌};
ghost use Rattle.bgp_wire.specs.Readable.{IsReadableSaid, IsReadableMessage};

use addr4::Memory;
use bgp_attr::Profile;
use bgp_wire::{Message, Notice, Said, Wire, write_notification, write_update};
use wire_laws::what_is_readable_fits;

/// Whether AS numbers are sent with four octets.
fn has_four_octets(profile: Profile, wide: bool) -> bool
    ensures { result ≡ (profile.as4 || wide) }
{
    profile.as4 || wide
}

/// What is said of one prefix of a family as it is sent; no octets where it is too long, or of more or fewer prefixes.
fn push_said<F: Wire>(
    out: &mut Vec<u8>,
    profile: Profile,
    external: bool,
    said: &Said<F>,
    wide: bool,
) -> Result<(), Memory>
    requires { IsReadableSaid F.V6 profile external said.now }
{
    let prefixes = said
        .withdrawn
        .as_slice()
        .len()
        .saturating_add(said.announced.as_slice().len());
    if prefixes != 1 {
        return Ok(());
    }
    what_is_readable_fits();
    let to = Profile {
        as4: has_four_octets(profile, wide),
        revised: false,
        reflect: false,
        v6: false,
        second: false,
    };
    match write_update(*out.allocator(), to, said)? {
        Some(octets) => out.extend_from_slice(octets.as_slice())?,
        None => {}
    }
    Ok(())
}

/// The NOTIFICATION of a fault; no octets where it is too long.
fn push_notice(out: &mut Vec<u8>, notice: &Notice) -> Result<(), Memory> {
    let data = notice.octets.as_slice();
    if data.len() > 4075 {
        return Ok(());
    }
    let octets = write_notification(*out.allocator(), notice.code, notice.subcode, data)?;
    out.extend_from_slice(octets.as_slice())?;
    Ok(())
}

/// What is sent of what was read: an UPDATE of one prefix, or the NOTIFICATION that answers a fault. `wide` is for AS numbers
/// of four octets.
pub(crate) fn push_written(
    out: &mut Vec<u8>,
    profile: Profile,
    external: bool,
    message: &Message,
    wide: bool,
) -> Result<(), Memory>
    requires { IsReadableMessage profile external message.now }
{
    match message {
        Message::Update(update) => {
            push_said(out, profile, external, &update.first, wide)?;
            push_said(out, profile, external, &update.second, wide)
        }
        Message::Notify(notice) => push_notice(out, notice),
        _ => Ok(()),
    }
}
