// Plans, simulation relations and ranks: what is proved of every well-formed domain.
// Each function stands for a theorem, which is its contract.
#![tactic(auto)]

ghost use Rattle.plans.specs.Theorems.{LargestSimulation, LeftServes, OneRank, ReachedAttains};

// The iteration over pairs ends in the largest simulation.
pub fn largest_simulation_stands()
    ensures { LargestSimulation }
{}

// Each pair has exactly one rank.
pub fn ranks_stand()
    ensures { OneRank }
{}

// The k-th set of the iteration holds what serves k requests in a row.
pub fn left_serves_stands()
    ensures { LeftServes }
{}

// A condition is reached exactly when some plan attains the goal from it.
pub fn reached_stands()
    ensures { ReachedAttains }
{}
