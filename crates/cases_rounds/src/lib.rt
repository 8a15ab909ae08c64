// Examples of the definitions of the rounds that speak of stages, and of an index of a port in memory: claims that stand and claims that
// are refuted. Each function stands for the rows of one list, by its contract.
#![tactic(auto)]

ghost use Rattle.cases_rounds.specs.Ports.{PortsSay};
ghost use Rattle.cases_rounds.specs.Rounds.{RoundsSay};
ghost use Rattle.cases_rounds.specs.Stages.{StagesComputedSay, StagesSay};

// What is read from stages.
pub fn stages_computed_stand()
    ensures { StagesComputedSay }
{}

// What a stage holds, and what a round changes of it.
pub fn stages_stand()
    ensures { StagesSay }
{}

// What stands before a round, in it, and between two.
pub fn rounds_stand()
    ensures { RoundsSay }
{}

// An index of a port, and what follows of it.
pub fn ports_stand()
    ensures { PortsSay }
{}
