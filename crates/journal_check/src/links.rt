//! The live links with their rows.

ghost use Rattle.std.specs.Prelude.{◌≡◌, ◌↔◌, IsTrue, IsSome, Some, None, OnOk};
ghost use Rattle.std.specs.Option.{option_copied};
ghost use Rattle.std.specs.FinMap as map;
ghost use Rattle.journal_check.specs.Maps.{key_of, links_of};
ghost use Rattle.link_change.specs.Rows.{no_rows};
ghost use Rattle.journal_text.specs.Walk.{HasRow, HaveSameRows, with_link, with_row_on};
ghost use Rattle.journal_text.specs.Links.{proto_number};

use crate::rows::TextRows;
use crate::text::Text;
use addr4::{Memory, Prefix, Row};
use addr6::V6;
use journal_text::Link;
use rib_route::Proto;
use std::alloc::Global;
use std::collections::BTreeMap;
use std::marker::Model;

// A link as a key: its kind, whose it is, and its number.
#[derive(Clone, Copy, PartialEq, Eq, PartialOrd, Ord)]
pub(crate) struct Key {
    kind: u8,
    owner: u32,
    number: u32,
}

fn proto_number(proto: Proto) -> u32
    ensures { result ≡ proto_number proto }
{
    match proto {
        Proto::Connected => 0,
        Proto::Static => 1,
        Proto::Ospf => 2,
        Proto::Rip => 3,
    }
}

impl Key {
    fn new(kind: u8, owner: u32, number: u32) -> Key
        ensures { result ≡ record { kind = kind; owner = owner; number = number } }
    {
        Key {
            kind,
            owner,
            number,
        }
    }
}

fn key_of(link: Link) -> Key
    ensures { result ≡ key_of link }
{
    match link {
        Link::In(k) => Key::new(0, k, 0),
        Link::Peer(k, s) => Key::new(1, k, s),
        Link::Filt(k) => Key::new(2, k, 0),
        Link::Res(k) => Key::new(3, k, 0),
        Link::Org(proto) => Key::new(4, proto_number(proto), 0),
        Link::Lost(proto, n) => Key::new(5, proto_number(proto), n),
        Link::Low => Key::new(6, 0, 0),
        Link::Dyn => Key::new(7, 0, 0),
        Link::Int => Key::new(8, 0, 0),
        Link::Red => Key::new(9, 0, 0),
        Link::Best => Key::new(10, 0, 0),
        Link::ReadRib => Key::new(11, 0, 0),
        Link::Ebgp => Key::new(12, 0, 0),
        Link::Ibgp => Key::new(13, 0, 0),
        Link::Ext => Key::new(14, 0, 0),
        Link::Fib => Key::new(15, 0, 0),
        Link::Read(j, s) => Key::new(16, j, s),
        Link::Outf(j, s) => Key::new(17, j, s),
        Link::Adv(j, s) => Key::new(18, j, s),
    }
}

/// The live links with their rows.
#[derive(Drop)]
pub(crate) struct LiveLinks {
    alloc: Global,
    maps: BTreeMap<Key, TextRows>,
}

impl Model for LiveLinks {
    ghost use Rattle.std.specs.FinMap as map;
    ghost use Rattle.journal_check.specs.Maps.{LinkMap, link_map_code};

    ghost Value = { LinkMap };

    ghost coded = { link_map_code };

    ghost view = { λ l. map.from_entries l.maps.entries };
}

impl LiveLinks {
    /// No link is live; takes no memory.
    pub(crate) fn new(alloc: Global) -> LiveLinks
        ensures { result ≡ map.empty }
    {
        LiveLinks {
            alloc,
            maps: BTreeMap::new(alloc),
        }
    }

    /// The rows of a link, if it is live.
    pub(crate) fn get(&self, link: Link) -> Option<&TextRows>
        ensures { option_copied result ≡ map.get self.now (key_of link) }
    {
        self.maps.get(&key_of(link))
    }

    /// Whether a link is live.
    pub(crate) fn is_live(&self, link: Link) -> bool
        ensures { IsTrue result ↔ IsSome (links_of self.now link) }
    {
        self.get(link).is_some()
    }

    /// Whether a link isn't live.
    pub(crate) fn is_free(&self, link: Link) -> bool
        ensures { IsTrue result ↔ (links_of self.now link ≡ None) }
    {
        self.get(link).is_none()
    }

    /// Whether a link is live and has this row at a prefix.
    pub(crate) fn has_row(&self, link: Link, p: Prefix<V6>, row: Option<&Text>) -> bool
        ensures { IsTrue result ↔ HasRow (links_of self.now) link p (option_copied row.entry) }
    {
        match self.get(link) {
            None => false,
            Some(rows) => rows.has(p, row),
        }
    }

    /// Whether both links are live and have the same rows.
    pub(crate) fn have_same_rows(&self, upper: Link, lower: Link) -> bool
        ensures { IsTrue result ↔ HaveSameRows (links_of self.now) upper lower }
    {
        match self.get(upper) {
            None => false,
            Some(first) => match self.get(lower) {
                None => false,
                Some(second) => first.same(second),
            },
        }
    }

    /// The link begins, without rows.
    pub(crate) fn begin(&mut self, link: Link) -> Result<(), Memory>
        ensures { OnOk result (links_of self.new ≡ with_link (links_of self.old) link (Some no_rows)) }
    {
        self.put(link, TextRows::new(self.alloc))?;
        Ok(())
    }

    /// The link is live from now on, with these rows.
    pub(crate) fn put(&mut self, link: Link, rows: TextRows) -> Result<(), Memory>
        ensures { OnOk result (self.new ≡ map.insert self.old (key_of link) rows) }
    {
        self.maps.insert(key_of(link), rows)?;
        Ok(())
    }

    /// The link isn't live any more. The rows that it had, if it was.
    pub(crate) fn take(&mut self, link: Link) -> Option<TextRows>
        ensures rows { result ≡ map.get self.old (key_of link) }
        ensures taken { self.new ≡ map.remove self.old (key_of link) }
    {
        self.maps.remove(&key_of(link))
    }

    /// Sets a row of a link, if it is live.
    pub(crate) fn set_row(&mut self, link: Link, p: Prefix<V6>, text: Text) -> Result<(), Memory>
        ensures { OnOk result (links_of self.new ≡ with_row_on (links_of self.old) link p (Some text)) }
    {
        let Some(rows) = self.maps.get_mut(&key_of(link)) else {
            return Ok(());
        };
        rows.put(p, text)?;
        Ok(())
    }

    /// Takes a row of a link out, if it is live.
    pub(crate) fn drop_row(&mut self, link: Link, p: Prefix<V6>)
        ensures { links_of self.new ≡ with_row_on (links_of self.old) link p None }
    {
        let Some(rows) = self.maps.get_mut(&key_of(link)) else {
            return;
        };
        rows.take(p);
    }
}
