//! Marks of the words of a path.

ghost use Rattle.std.specs.Prelude.{◌≡◌, ◌↔◌, IsTrue};
ghost use Rattle.bgp_attr.specs.Words.{with_mark, marks_of, IsMarked};

/// Which AS a path may have: a bit for each rest by 64 that one of its words leaves. It stands beside the words, which are a
/// block of memory of their own. Each lookup through the incoming filter asks whether a path has the local AS: where its bit
/// isn't set, the path hasn't, which is told without a look at that block.
#[derive(Clone, Copy, PartialEq, Eq)]
pub(crate) struct Marks {
    bits: u64,
}

impl Marks {
    /// Nothing is marked.
    pub(crate) fn new() -> Marks
        ensures { result.bits ≡ 0 }
    {
        Marks { bits: 0 }
    }

    /// Each of the words is marked, and nothing else.
    pub(crate) fn of(words: &[u32]) -> Marks
        ensures { result.bits ≡ marks_of words.now }
    {
        let mut marks = Marks::new();
        for word in words {
            marks.add(*word);
        }
        marks
    }

    fn add(&mut self, word: u32)
        ensures { self.new.bits ≡ with_mark self.old.bits word }
    {
        self.bits |= 1 << (word % 64);
    }

    /// False only where no word is this one.
    pub(crate) fn may_have(&self, word: u32) -> bool
        ensures { IsTrue result ↔ IsMarked self.now.bits word }
    {
        (self.bits >> (word % 64)) % 2 == 1
    }
}
