//! A map from prefixes to values, as a radix trie of sixteen ways.
//!
//! Each key has a leaf: its prefix, its value, and a link to the next longer key of the same address. The leaves lie in a
//! [`Slab`](slab::Slab), and an index leads each address to the leaf of its shortest key: from the root downward a branch
//! has a link for each value of the next four bits, and a link that has one address left is that address's leaf. So a call
//! looks at eight branches at most, and at about log16 of the number of keys where addresses are spread.
//!
//! What is kept true: each leaf leads to the next longer one of its address, no prefix has two, and the index leads each
//! address to its first. Of the index: a link that leads to nothing stands for no address with a leaf, one that leads to a
//! leaf for that address alone, and each branch hangs at one link. Contracts see none of that, but a finite map, ordered by
//! address and then length, and whose leaf lies at which key.
//!
//! A leaf keeps its key in the slab as long as it stands. Whoever remembers the key hands it in, and the leaf is found
//! without a descent. What lies there is compared first, so a key that is out of date costs a descent and changes no answer.
//!
//! `safe_table` keeps its rows in one.
#![tactic(auto)]

mod branch;
mod chain;
mod clearing;
mod index;
mod link;
mod node;
mod reading;
mod removing;
mod trie;
mod writing;

pub use node::Node;
pub use trie::Trie;
