// Examples of the definitions of plans, costs and locks: claims that stand and claims that are refuted. Each function stands for the
// rows of one list, by its contract.
#![tactic(auto)]

ghost use Rattle.cases_plans.specs.Compare.{CompareSay};
ghost use Rattle.cases_plans.specs.Costs.{CostsSay, LawfulSay, PricesSay, RunsSay, WeakSay};
ghost use Rattle.cases_plans.specs.Domains.{DomainsSay};
ghost use Rattle.cases_plans.specs.Flags.{ReadingsSay};
ghost use Rattle.cases_plans.specs.Locks.{LocksSay, LookupsSay};
ghost use Rattle.cases_plans.specs.Models.{ModelsSay, OrdersSay};
ghost use Rattle.cases_plans.specs.Plans.{PlansSay};
ghost use Rattle.cases_plans.specs.Sets.{ComputedSay, IterationsSay, SetsSay};
ghost use Rattle.cases_plans.specs.Simulations.{SimulationsSay};
ghost use Rattle.cases_plans.specs.Steps.{StepsSay};

// Moves, plans, runs, and what a plan attains.
pub fn plans_stand()
    ensures { PlansSay }
{}

// Domains, what a pair serves, simulations, what is kept, and ranks.
pub fn simulations_stand()
    ensures { SimulationsSay }
{}

// The domain that a port tells.
pub fn domains_stand()
    ensures { DomainsSay }
{}

// What is attainable, closed and stable.
pub fn sets_stand()
    ensures { SetsSay }
{}

// The sets as they are computed.
pub fn computed_stand()
    ensures { ComputedSay }
{}

// Which sets iterate.
pub fn iterations_stand()
    ensures { IterationsSay }
{}

// What is read from lists of flags, numbers and tasks.
pub fn readings_stand()
    ensures { ReadingsSay }
{}

// Cost models that are lawful, and for each law one that breaks it.
pub fn lawful_stand()
    ensures { LawfulSay }
{}

// The same for the weak laws.
pub fn weak_stand()
    ensures { WeakSay }
{}

// Costs, their order, and moves of few minutes.
pub fn costs_stand()
    ensures { CostsSay }
{}

// What runs cost.
pub fn runs_stand()
    ensures { RunsSay }
{}

// What some run of few moves costs.
pub fn prices_stand()
    ensures { PricesSay }
{}

// The two models.
pub fn models_stand()
    ensures { ModelsSay }
{}

// The order of two columns.
pub fn orders_stand()
    ensures { OrdersSay }
{}

// Costs compared.
pub fn compare_stand()
    ensures { CompareSay }
{}

// What is looked up in a port.
pub fn lookups_stand()
    ensures { LookupsSay }
{}

// What a lock tells and does.
pub fn locks_stand()
    ensures { LocksSay }
{}

// How a lock goes on when it is worked.
pub fn steps_stand()
    ensures { StepsSay }
{}
