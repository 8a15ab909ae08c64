// How a sheet is read, defined apart from any program, and what is proved of that reading.
// Each function stands for a theorem, which is its contract.
#![tactic(auto)]

ghost use Rattle.reading.specs.Theorems.{Grammatical, Taken, Written};

// A sheet that is taken is the one sheet of a valid port.
pub fn taken_stands()
    ensures { Taken }
{}

// The sheet of a valid port is taken.
pub fn written_stands()
    ensures { Written }
{}

// A text is judged as the grammar of formulas does.
pub fn grammatical_stands()
    ensures { Grammatical }
{}
