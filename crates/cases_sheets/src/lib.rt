// Examples of the definitions of loads, records and readers: claims that hold and claims that do not. Each function stands for the rows
// of one list, by its contract.
#![tactic(auto)]

ghost use Rattle.cases_sheets.specs.Drafts.{DraftsShown};
ghost use Rattle.cases_sheets.specs.Loads.{AsItWas, HoldingsHold, LoadsHold, OneAnswer, TellsHold};
ghost use Rattle.cases_sheets.specs.Readers.{Counts, ItselfShown, ReadsHold, StepsShown};
ghost use Rattle.cases_sheets.specs.Records.{AdmissionsShown, AdmitsAsRead, DecodingsHold, EntriesShown, HeadsShown, KindsShown, RequestsShown};

// The answer that tells what is read.
pub fn tells_stand()
    ensures { TellsHold }
{}

// What a load leaves.
pub fn loaded_stand()
    ensures { LoadsHold }
{}

// The port that is held after a load.
pub fn holds_stand()
    ensures { HoldingsHold }
{}

// The bytes of kinds.
pub fn kinds_stand()
    ensures { KindsShown }
{}

// The kind that a byte stands for.
pub fn decodes_stand()
    ensures { DecodingsHold }
{}

// What is judged of a kind byte.
pub fn admissions_stand()
    ensures { AdmissionsShown }
{}

// How a record begins.
pub fn heads_stand()
    ensures { HeadsShown }
{}

// Requests whose texts are still in the sheet.
pub fn requests_stand()
    ensures { RequestsShown }
{}

// What records say.
pub fn entries_stand()
    ensures { EntriesShown }
{}

// Steps of a reader, and bytes from 1 to a limit.
pub fn steps_stand()
    ensures { StepsShown }
{}

// Values that stand for themselves.
pub fn itself_stands()
    ensures { ItselfShown }
{}

// What is told of a reader's step.
pub fn reads_stand()
    ensures { ReadsHold }
{}

// What a draft says.
pub fn drafts_stand()
    ensures { DraftsShown }
{}

// A sheet has one answer, but for want of memory.
pub fn one_answer_stands()
    ensures { OneAnswer }
{}

// A kind byte is judged as the reading judges it.
pub fn admits_stands()
    ensures { AdmitsAsRead }
{}

// Counts and lengths are bytes from 1 to a limit.
pub fn counts_stand()
    ensures { Counts }
{}

// A load without a value leaves the same port in memory.
pub fn as_it_was_stands()
    ensures { AsItWas }
{}
