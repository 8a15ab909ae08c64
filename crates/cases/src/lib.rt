// Worked examples, as theorems about the definitions. Each function stands for the rows of one list, by its contract.
#![tactic(auto)]

ghost use Rattle.cases.specs.Errands.{ErrandsHold};
ghost use Rattle.cases.specs.Formulas.{FaultyHold, FormulasHold};
ghost use Rattle.cases.specs.Policies.{PoliciesHold};
ghost use Rattle.cases.specs.Ranks.{RanksHold};
ghost use Rattle.cases.specs.Sheets.{SheetsHold, SheetsValid};

mod toll;

pub use toll::{Fare, Toll, solve_toll};

// Formulas have the values that their rows say.
pub fn formulas_stand()
    ensures { FormulasHold }
{}

// Texts that are no formula stop being one where their rows say.
pub fn faulty_formulas_stand()
    ensures { FaultyHold }
{}

// Sheets are read as their rows say.
pub fn sheets_stand()
    ensures { SheetsHold }
{}

// The ports among them are valid.
pub fn ports_stand()
    ensures { SheetsValid }
{}

// The pairs of ports have the ranks that their rows say.
pub fn ranks_stand()
    ensures { RanksHold }
{}

// Policies, costs and ranks are those of their ports: each cost is the least over all plans.
pub fn policies_stand()
    ensures { PoliciesHold }
{}

// Locks that are worked by a policy go where their rows say, at the cost that was quoted or less.
pub fn locks_stand()
    ensures { ErrandsHold }
{}
