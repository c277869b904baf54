//! The interior rows, and who asked about which subnets.

ghost use Rattle.std.specs.Prelude.{◌≡◌, OnOk, OnErr, IfOk};
ghost use Rattle.std.specs.FinMap as map;
ghost use Rattle.register_interest.specs.Width.{width};
ghost use Rattle.register_interest.specs.Covers.{matched, IsCover};
ghost use Rattle.register_interest.specs.Interests.{AreReached, without};
ghost use Rattle.register_interest.specs.Matches.{match_of, lent_match};
ghost use Rattle.register_interest.specs.Registers.{AllStand, KeepsAnswers, put_row};
ghost use Rattle.register_interest.specs.Search.{rows_in};

use crate::interests::{Interest, Interests};
use crate::search::{largest_subnet, longest_row};
use addr4::{Addr, Family, Memory, Prefix, Row, V4};
use std::alloc::Global;
use std::collections::BTreeMap;
use std::marker::Model;

/// A row with its prefix.
#[derive(PartialEq, Eq, Drop)]
pub struct Match<R, P = Prefix> {
    pub prefix: P,
    pub row: R,
}

/// The interior rows, and who asked about which subnets.
///
/// Contracts see the rows, a finite map, and the interests, a finite map from subnet and client to the prefix of the match.
#[derive(Drop)]
pub struct Register<R, F: Family = V4> {
    rows: BTreeMap<Prefix<F>, R>,
    interests: Interests<F>,
}

impl<R, F: Family> Model for Register<R, F> {
    ghost use Rattle.std.specs.FinMap as map;
    ghost use Rattle.register_interest.specs.Registers.{Registry, AllStand, registry_code};
    ghost use Rattle.register_interest.specs.Interests.{AreShortIn};
    ghost use Rattle.register_interest.specs.Search.{rows_in, AreShort};

    ghost Value = { Registry R };

    ghost coded = { registry_code R.code };

    ghost view = { λ a. record { rows = rows_in a.rows; interests = a.interests } };

    ghost invariant = { λ a. AllStand (record { rows = rows_in a.rows; interests = a.interests }) × AreShort F.WIDTH (map.get (rows_in a.rows)) × AreShortIn F.WIDTH a.interests };
}

// The prefix of a match.
fn prefix_of<R, F: Family>(found: &Option<(Prefix<F>, &R)>) -> Option<Prefix<F>>
    ensures { result ≡ matched (lent_match found.now) }
{
    match found {
        None => None,
        Some(found) => Some(found.0),
    }
}

// A match with a copy of its row.
fn copied<R: Row, F: Family>(
    found: &Option<(Prefix<F>, &R)>,
) -> Result<Option<Match<R, Prefix<F>>>, Memory>
    ensures { IfOk result (λ copy. match_of copy ≡ lent_match found.now) }
{
    match found {
        None => Ok(None),
        Some(found) => Ok(Some(Match {
            prefix: found.0,
            row: found.1.copy()?,
        })),
    }
}

// Puts the row at a prefix, or takes it out.
fn set_row<R: Drop, F: Family>(
    rows: &mut BTreeMap<Prefix<F>, R>,
    prefix: Prefix<F>,
    new: Option<R>,
) -> Result<(), Memory>
    ensures ok { OnOk result (rows_in rows.new ≡ put_row (rows_in rows.old) prefix new) }
    ensures err { OnErr result (rows_in rows.new ≡ rows_in rows.old) }
{
    match new {
        Some(row) => {
            rows.insert(prefix, row)?;
        }
        None => {
            rows.remove(&prefix);
        }
    }
    Ok(())
}

impl<R: Row, F: Family> Register<R, F> {
    /// No rows and no interests. Takes no memory.
    pub fn new(alloc: Global) -> Register<R, F>
        ensures rows { result.rows ≡ map.empty }
        ensures interests { result.interests ≡ map.empty }
    {
        Register {
            rows: BTreeMap::new(alloc),
            interests: Interests::new(alloc),
        }
    }

    /// Each address of a subnet in which an interest is kept has the match that was answered.
    pub fn known(&self)
        ensures { AllStand self.now }
    {
        let _rows = &self.rows;
    }

    /// The longest row that holds the address, and the largest subnet with that answer.
    pub fn peek(&self, address: Addr<F>) -> (Option<(Prefix<F>, &R)>, Prefix<F>)
        ensures { IsCover width (map.get self.now.rows) address (lent_match result.0) result.1 }
    {
        let found = longest_row(&self.rows, address);
        let subnet = largest_subnet(&self.rows, address, &prefix_of(&found));
        (found, subnet)
    }

    /// Answers as [`peek`](Register::peek) does, with a copy of the row, and keeps the client's interest in the subnet. For
    /// want of memory nothing changes.
    pub fn query(
        &mut self,
        client: u8,
        address: Addr<F>,
    ) -> Result<(Option<Match<R, Prefix<F>>>, Prefix<F>), Memory>
        ensures cover { IfOk result (λ r. IsCover width (map.get self.old.rows) address (match_of r.0) r.1) }
        ensures rows { self.new.rows ≡ self.old.rows }
        ensures interests { IfOk result (λ r. self.new.interests ≡ map.insert self.old.interests (record { subnet = r.1; client = client }) (matched (match_of r.0))) }
        ensures err { OnErr result (self.new.interests ≡ self.old.interests) }
    {
        let found = longest_row(&self.rows, address);
        let prefix = prefix_of(&found);
        let subnet = largest_subnet(&self.rows, address, &prefix);
        let copy = copied(&found)?;
        subnet.known();
        self.interests.add(Interest { subnet, client }, prefix)?;
        Ok((copy, subnet))
    }

    /// Gives up the client's interest in the subnet.
    pub fn forget(&mut self, client: u8, subnet: Prefix<F>)
        ensures rows { self.new.rows ≡ self.old.rows }
        ensures interests { self.new.interests ≡ map.remove self.old.interests (record { subnet = subnet; client = client }) }
    {
        let interest = Interest { subnet, client };
        self.interests.give_up(&interest);
    }

    /// Makes the row at a prefix the new one, or takes it out, and answers and gives up the interests that this reaches, each
    /// once. For want of memory nothing changes.
    pub fn changed(
        &mut self,
        alloc: Global,
        prefix: Prefix<F>,
        new: Option<R>,
    ) -> Result<Vec<Interest<Prefix<F>>>, Memory>
        ensures rows { OnOk result (self.new.rows ≡ put_row self.old.rows prefix new) }
        ensures reached { IfOk result (λ out. AreReached width prefix (map.get self.old.interests) out.items) }
        ensures interests { IfOk result (λ out. self.new.interests ≡ without self.old.interests out.items) }
        ensures same { OnOk result (KeepsAnswers self.old self.new) }
        ensures err { OnErr result (self.new ≡ self.old) }
    {
        prefix.known();
        let out = self.interests.reached(alloc, prefix)?;
        set_row(&mut self.rows, prefix, new)?;
        self.interests.give_up_all(&out);
        Ok(out)
    }
}
