//! Links between nodes.

ghost use Rattle.std.specs.Prelude.{◌≡◌, ◌↔◌, ◌+◌, ◌<◌, ◌^◌, IfSome};
ghost use Rattle.nibble_trie.specs.Links.{leads, leaf_of};
ghost use Rattle.nibble_trie.specs.declared.link.Target.TheVariants.{Nothing, Leaf, Inner};

/// What a link leads to: nothing, or the leaf or the branch of a key.
#[derive(Clone, Copy)]
pub(crate) enum Target {
    Nothing,
    Leaf(usize),
    Inner(usize),
}

/// A link in one word: 0 leads to nothing, a number below 2^31 to the leaf before it, one from there on to a branch.
#[derive(Clone, Copy)]
pub(crate) struct Link {
    word: u32,
}

impl Link {
    pub(crate) fn nothing() -> Link
        ensures { leads result ≡ Nothing }
    {
        Link { word: 0 }
    }

    pub(crate) fn leaf(key: usize) -> Link
        requires { key + 1 < 2 ^ 31 }
        ensures { leads result ≡ Leaf key }
    {
        Link {
            word: key as u32 + 1,
        }
    }

    pub(crate) fn inner(key: usize) -> Link
        requires { key < 2 ^ 31 }
        ensures { leads result ≡ Inner key }
    {
        Link {
            word: key as u32 + 2147483648,
        }
    }

    // The link to a leaf, if there is one.
    pub(crate) fn to(key: Option<usize>) -> Link
        requires { IfSome key (λ k. k + 1 < 2 ^ 31) }
        ensures { leaf_of (leads result) ≡ key }
    {
        match key {
            None => Link::nothing(),
            Some(key) => Link::leaf(key),
        }
    }

    // The link's word as a number: 0 where it leads to nothing.
    pub(crate) fn number(self) -> u64
        ensures nothing { (result ≡ 0) ↔ (leads self ≡ Nothing) }
        ensures small { result < 2 ^ 32 }
    {
        self.word as u64
    }

    pub(crate) fn target(self) -> Target
        ensures { result ≡ leads self }
    {
        if self.word == 0 {
            return Target::Nothing;
        }
        if self.word < 2147483648 {
            return Target::Leaf((self.word - 1) as usize);
        }
        Target::Inner((self.word - 2147483648) as usize)
    }

    // The key of the leaf that the link leads to, if it does.
    pub(crate) fn key(self) -> Option<usize>
        ensures value { result ≡ leaf_of (leads self) }
        ensures small { IfSome result (λ k. k + 1 < 2 ^ 31) }
    {
        if self.word == 0 {
            return None;
        }
        if self.word < 2147483648 {
            return Some((self.word - 1) as usize);
        }
        None
    }
}
