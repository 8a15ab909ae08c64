// A text that stands in a sheet.
ghost use Rattle.std.specs.Prelude.{◌≡◌, ℕ, ◌+◌, ◌^◌, ◌<◌, ◌≤◌, List, length, MatchResult};
ghost use Rattle.formula.specs.Grammar.{verdict};
ghost use Rattle.port.specs.Numbers.{longest_text};
ghost use Rattle.faults.specs.declared.layers.PortFault.TheVariants.{Record};
ghost use Rattle.reading.specs.Reading.{Step, fault, judged};

use faults::RecordFault;
use formula::FormulaFault;

// The bytes of a text, 1 to 63, and where in the sheet they begin: nowhere, if the text is absent.
#[derive(Clone, Copy)]
pub struct SheetText<'a> {
    pub bytes: &'a [u8],
    pub place: Option<usize>,
    ghost some: { 0 < length bytes.now },
    ghost few: { length bytes.now ≤ longest_text },
}

// A text that is there, and the place where it begins.
#[derive(Clone, Copy)]
pub(crate) struct TextAt<'a> {
    pub(crate) bytes: &'a [u8],
    pub(crate) place: usize,
    ghost some: { 0 < length bytes.now },
    ghost few: { length bytes.now ≤ longest_text },
    ghost within: { place + length bytes.now < 2 ^ 64 },
}

impl<'a> TextAt<'a> {
    // The text is a formula over the marks; a fault of it stands where it does in the sheet.
    pub(crate) fn check(self, marks: u8) -> Result<(), RecordFault>
        ensures { MatchResult result (λ _. (x : Step (List ℕ)) → judged self.entry.place (verdict marks self.entry.bytes.now) x ≡ x) (λ e. (x : Step (List ℕ)) → judged self.entry.place (verdict marks self.entry.bytes.now) x ≡ fault (Record e)) }
    {
        // Stays: tried with `map_err`, whose closure adds the two places: what the function ensures of the sum did not close.
        match formula::check(self.bytes, marks) {
            Ok(()) => Ok(()),
            Err(fault) => Err(RecordFault::Formula(FormulaFault {
                place: self.place + fault.place,
            })),
        }
    }
}
