//! Rows that have a distance.

ghost use Rattle.std.specs.Prelude.{◌≡◌, ℕ};

use addr4::{Addr, Family, Row};
use rib_route::{External, FibRow, Interior};

/// A row that is preferred to another at the same prefix by its administrative distance.
pub trait Ranked: Row + Copy {
    ghost distance: { Self → ℕ };

    /// The row's distance: the lesser is preferred.
    fn distance(&self) -> u8
        ensures { result ≡ distance self.now };
}

impl<F: Family> Ranked for Interior<Addr<F>> {
    ghost use Rattle.rib_route.specs.Distances.{distance, fib_proto};

    ghost distance = { λ row. distance (fib_proto row.proto) };

    fn distance(&self) -> u8 {
        self.proto.distance()
    }
}

impl<F: Family> Ranked for External<Addr<F>> {
    ghost use Rattle.rib_route.specs.Distances.{distance, external_proto};

    ghost distance = { λ row. distance (external_proto row) };

    fn distance(&self) -> u8 {
        self.fib_proto().distance()
    }
}

impl<F: Family> Ranked for FibRow<Addr<F>> {
    ghost use Rattle.rib_route.specs.Distances.{distance};

    ghost distance = { λ row. distance row.proto };

    fn distance(&self) -> u8 {
        self.proto.distance()
    }
}
