//! Rules where AS numbers have four octets.

use addr4::{Memory, V4};
use bgp_attr::Profile;
use policy_rules::read_rules;
use std::alloc::Global;
use std::test::Fail;

/// Whether a text is one of rules.
fn is_read(alloc: Global, text: &str) -> Result<bool, Memory> {
    let profile = Profile {
        as4: true,
        revised: false,
        reflect: false,
        v6: false,
        second: false,
    };
    Ok(read_rules::<V4>(alloc, profile, text.as_bytes())?.is_ok())
}

#[test]
fn as_numbers_of_four_octets_are_read(rt: HostRuntime) -> Result<(), Fail> {
    let greatest = is_read(rt.alloc(), "path 4294967295 accept")?;
    let greater = is_read(rt.alloc(), "path 4294967296 accept")?;
    assert!(rt; greatest && !greater);
    Ok(())
}
