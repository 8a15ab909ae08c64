// Formulas: their grammar, where a text stops being one, and their truth.
ghost use Rattle.cases_words.specs.Bits.{BitsShown, StepsShown, VerdictsShown};
ghost use Rattle.cases_words.specs.Formulas.{FaultyHold, PartsHold, PlacesHold, ReadPartsHold, RefusalsHold, Unambiguous, WholesHold};
ghost use Rattle.cases_words.specs.Truths.{TruthsShown, ValuesShown};

// Tests of truth values, marks and bytes.
pub fn bits_stand()
    ensures { BitsShown }
{}

// Steps of the reading by bytes.
pub fn steps_stand()
    ensures { StepsShown }
{}

// Where the reading by bytes ends.
pub fn verdicts_stand()
    ensures { VerdictsShown }
{}

// Parts of texts, and bytes that are none.
pub fn parts_stand()
    ensures { PartsHold }
{}

// Bytes at places of a text.
pub fn places_stand()
    ensures { PlacesHold }
{}

// Whole texts with their values.
pub fn wholes_stand()
    ensures { WholesHold }
{}

// What a reader of a part has read.
pub fn read_parts_stand()
    ensures { ReadPartsHold }
{}

// Where a reader of a part refuses.
pub fn refusals_stand()
    ensures { RefusalsHold }
{}

// Texts that are no formula, with the one place where they stop being one.
pub fn faulty_stand()
    ensures { FaultyHold }
{}

// A text has at most one value, and at most one place where it stops being a formula.
pub fn one_value_stands()
    ensures { Unambiguous }
{}

// What the parts of a text come to.
pub fn values_stand()
    ensures { ValuesShown }
{}

// The truth of texts, and which are formulas.
pub fn truths_stand()
    ensures { TruthsShown }
{}
