// A cost model that is written only here: a run costs its minutes and one for each of its moves.
ghost use Rattle.std.specs.Prelude.{refl};
ghost use Rattle.cases.specs.Tolls.{fare_list, fare_sized, toll_laws, toll_model};
ghost use Rattle.plans.specs.Domains.{domain_of};
ghost use Rattle.port.specs.Model.{model_of};
ghost use Rattle.solver.specs.Solving.{Outcome, start_of};

use costs::{CostModel, Named};
use port::{Move, Port};
use solver::{Entry, SolveError, Summary, solve};
use std::alloc::Global;

#[derive(Clone, Copy, Debug, PartialEq, Eq, PartialOrd, Ord)]
pub struct Fare {
    pub total: u32,
}

pub struct Toll;

impl Named for Toll {
    const NAME: &'static str = "toll";
}

impl CostModel for Toll {
    type Cost = Fare;

    const COLUMNS: usize = 1;

    ghost COLUMNS = { 1 };

    ghost counted = { refl };

    ghost model = { toll_model };

    ghost laws = { toll_laws };

    ghost exact = { fare_list };

    ghost sized = { fare_sized };

    fn zero() -> Fare {
        Fare { total: 0 }
    }

    fn join(m: &Move, c: Fare) -> Fare {
        let total = c.total.saturating_add(m.minutes as u32 + 1);
        Fare { total }
    }

    fn less(a: Fare, b: Fare) -> bool {
        a < b
    }

    fn column(c: Fare, i: usize) -> u32 {
        if i == 0 { c.total } else { 0 }
    }
}

// Solves the port with tolls for its costs.
pub fn solve_toll(
    heap: Global,
    port: &Port,
    entries: &mut [Entry],
    costs: &mut [Fare],
    ranks: &mut [u16],
) -> Result<Summary, SolveError>
    ensures { Outcome (domain_of (model_of port.now)) toll_model fare_list (start_of (model_of port.now)) entries.old entries.new costs.old costs.new ranks.old ranks.new result }
{
    solve::<Toll>(heap, port, entries, costs, ranks)
}
