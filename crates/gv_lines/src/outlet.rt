ghost use Rattle.std.specs.Prelude.{◌≡◌};
ghost use Rattle.gv_lines.specs.Outlet.{totals_in};

use crate::Totals;

/// Where a report goes: to a sink, or nowhere, where only its totals are kept.
#[derive(Clone, Copy, Debug, PartialEq, Eq)]
pub enum Outlet {
    Sink,
    Totals(Totals),
}

impl Outlet {
    /// The totals of what it was given; of nothing, where that went to a sink.
    pub fn totals(&self) -> Totals
        ensures { result ≡ totals_in self.now }
    {
        match self {
            Outlet::Sink => Totals::NONE,
            Outlet::Totals(totals) => *totals,
        }
    }
}
