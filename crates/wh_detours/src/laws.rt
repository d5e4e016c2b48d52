//! Why a shortest path on the grid without the cells that are taken is one. The functions do nothing: their contracts are
//! the laws.
#![tactic(auto)]

ghost use Rattle.wh_detours.specs.Laws.{SameDeliveries, AllLeastThere};

/// On the grid without the cells that are taken the same paths deliver.
pub fn same_deliveries()
    ensures { SameDeliveries }
{}

/// A shortest path there is a shortest path on the whole grid.
pub fn all_least_there()
    ensures { AllLeastThere }
{}
