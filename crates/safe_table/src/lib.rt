//! A map from prefixes to rows, with iterators that changes of the map leave in their places.
//!
//! A [`Table`] keeps its rows in a trie and, of each live iterator, the place where it stands: before all rows, or at a
//! prefix. Contracts see both as finite maps. What is kept true: each prefix at which iterators stand has a slot in the
//! trie that counts them, whether or not its row was removed meanwhile; a slot without a row is there for its iterators
//! alone and is gone with the last of them; such a slot is no row of the table.
//!
//! So rows may be put and removed between any two steps of an iterator, also the row that it stands at, and the next step
//! still finds its place: it goes to the least row beyond the place that is there now. A row put behind an iterator isn't
//! met, one beyond it is. A step is one descent: an iterator remembers the leaf where it stands, and goes to it without one.
//! Each slot on its way that is there for another iterator alone takes one more, and so does its own slot where the row is
//! gone.
//!
//! Incoming tables of peers, deletion stages, caches and the origins of the forwarding side stand on it.
#![tactic(auto)]

mod iter;
mod slot;
mod slots;
mod table;

pub use iter::Iter;
pub use slot::Slot;
pub use table::Table;
