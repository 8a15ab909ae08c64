// Examples of the definitions of the index, the tables, the search and the rounds: claims that stand and claims that are refuted. Each
// function stands for the rows of one list, by its contract.
#![tactic(auto)]

ghost use Rattle.cases_search.specs.Answers.{AnswersSay};
ghost use Rattle.cases_search.specs.Few.{FewSay};
ghost use Rattle.cases_search.specs.Indexes.{ComputedSay, IndexesSay};
ghost use Rattle.cases_search.specs.Labels.{CountsSay, LabelsSay};
ghost use Rattle.cases_search.specs.Least.{LeastSay};
ghost use Rattle.cases_search.specs.Loops.{LoopsSay};
ghost use Rattle.cases_search.specs.Steps.{StartsSay, StepsSay};
ghost use Rattle.cases_search.specs.Tasks.{TasksComputedSay, TasksSay};
ghost use Rattle.cases_search.specs.Verdicts.{VerdictsSay};

// What plans cost, and what the search answers.
pub fn answers_stand()
    ensures { AnswersSay }
{}

// What a verdict of the rounds tells.
pub fn verdicts_stand()
    ensures { VerdictsSay }
{}

// What is computed of moves and tables.
pub fn computed_stand()
    ensures { ComputedSay }
{}

// The index of moves, and tables of costs.
pub fn indexes_stand()
    ensures { IndexesSay }
{}

// What the search keeps, and what groups of moves come to.
pub fn labels_stand()
    ensures { LabelsSay }
{}

// How many conditions have a cost.
pub fn counts_stand()
    ensures { CountsSay }
{}

// What is computed of rows of flags and of choices.
pub fn tasks_computed_stand()
    ensures { TasksComputedSay }
{}

// What a task of the rounds holds.
pub fn tasks_stand()
    ensures { TasksSay }
{}

// What conditions cost at first.
pub fn starts_stand()
    ensures { StartsSay }
{}

// What the steps of the search do.
pub fn steps_stand()
    ensures { StepsSay }
{}

// What each plan costs at least.
pub fn least_stand()
    ensures { LeastSay }
{}

// Tables whose costs are those of runs of few moves.
pub fn few_stand()
    ensures { FewSay }
{}

// What the loop of the search keeps, and what it ends with.
pub fn loops_stand()
    ensures { LoopsSay }
{}
