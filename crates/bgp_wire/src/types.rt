//! Types of attributes.

ghost use Rattle.std.specs.Prelude.{◌≡◌, false, ℕ, ◌==◌, ◌||◌};
ghost use Rattle.bgp_wire.specs.Found.{has_type};

/// Types of attributes.
#[derive(Drop)]
pub(crate) struct TypeSet {
    has: [bool; 256],
}

impl TypeSet {
    pub(crate) fn new() -> TypeSet
        ensures { (kind : ℕ) → has_type result kind ≡ false }
    {
        TypeSet { has: [false; 256] }
    }

    pub(crate) fn has(&self, kind: u8) -> bool
        ensures { result ≡ has_type self.now kind }
    {
        self.has[usize::from(kind)]
    }

    pub(crate) fn add(&mut self, kind: u8)
        ensures { (k : ℕ) → has_type self.new k ≡ (has_type self.old k || (kind == k)) }
    {
        self.has[usize::from(kind)] = true;
    }
}
