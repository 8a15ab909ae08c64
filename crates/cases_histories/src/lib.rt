// Examples of the definitions of policies, histories and controllers: claims that stand and claims that are refuted. Each function stands
// for the rows of one list, by its contract.
#![tactic(auto)]

ghost use Rattle.cases_histories.specs.Answers.{AnswersSay};
ghost use Rattle.cases_histories.specs.Calls.{CallsSay};
ghost use Rattle.cases_histories.specs.Controls.{ControlsSay, NumberedSay};
ghost use Rattle.cases_histories.specs.Errands.{ErrandsSay};
ghost use Rattle.cases_histories.specs.Handlings.{HandlingsSay, OperationsSay};
ghost use Rattle.cases_histories.specs.Histories.{HistoriesSay};
ghost use Rattle.cases_histories.specs.Outings.{CoursesSay, ErrorsSay, LogsSay};
ghost use Rattle.cases_histories.specs.Policies.{PoliciesSay};
ghost use Rattle.cases_histories.specs.Promises.{BeginningsSay, BrinksSay, LivesSay, PromisesSay};
ghost use Rattle.cases_histories.specs.Solving.{SolvingSay};
ghost use Rattle.cases_histories.specs.Tables.{TablesSay};
ghost use Rattle.cases_histories.specs.Worlds.{WorldsSay};

// What is computed of a policy, its tables and its ranks.
pub fn tables_stand()
    ensures { TablesSay }
{}

// What a policy and its ranks promise.
pub fn policies_stand()
    ensures { PoliciesSay }
{}

// What a solve promises: its choices, and the buffers or the tables that it fills.
pub fn solving_stand()
    ensures { SolvingSay }
{}

// What is computed of a call: the rules that refuse it.
pub fn calls_stand()
    ensures { CallsSay }
{}

// What is computed of a history: its errands, and what is left of their costs.
pub fn errands_stand()
    ensures { ErrandsSay }
{}

// Calls as they may be answered, and histories of them.
pub fn histories_stand()
    ensures { HistoriesSay }
{}

// Quotes that are the least, and openings.
pub fn promises_stand()
    ensures { PromisesSay }
{}

// A quote that is the least of plans that end inside a simulation, and not of all.
pub fn brinks_stand()
    ensures { BrinksSay }
{}

// Histories that have the promise, and for each part of it one that breaks it.
pub fn lives_stand()
    ensures { LivesSay }
{}

// Where all histories have the promise.
pub fn beginnings_stand()
    ensures { BeginningsSay }
{}

// The numbers of refusals, and where a controller is beside a lock.
pub fn numbered_stand()
    ensures { NumberedSay }
{}

// What each call's result is as an answer.
pub fn answers_stand()
    ensures { AnswersSay }
{}

// What a controller decides and does.
pub fn controls_stand()
    ensures { ControlsSay }
{}

// Ports in memory with a policy, and controllers on them.
pub fn worlds_stand()
    ensures { WorldsSay }
{}

// Calls one after another over a lock, and answers that stand for those of a history.
pub fn courses_stand()
    ensures { CoursesSay }
{}

// What is printed where an outing has no log.
pub fn errors_stand()
    ensures { ErrorsSay }
{}

// The logs of outings.
pub fn logs_stand()
    ensures { LogsSay }
{}

// The operations of the accepted steps.
pub fn operations_stand()
    ensures { OperationsSay }
{}

// What calls do with the lock itself.
pub fn handlings_stand()
    ensures { HandlingsSay }
{}
