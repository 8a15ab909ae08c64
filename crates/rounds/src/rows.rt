// Formulas, and rows of flags, a flag for each condition.
ghost use Rattle.std.specs.Prelude.{◌≡◌, ℕ, true, ◌&&◌, length, IfOk};
ghost use Rattle.formula.specs.Truth.{is_formula, truth};
ghost use Rattle.plans.specs.Flags.{has};
ghost use Rattle.rounds.specs.Rows.{both_rows, truths};

use port::Text;
use std::alloc::{AllocError, Global};

// A text that is a formula over so many marks.
#[derive(Clone, Copy)]
pub(crate) struct Formula<'a> {
    pub(crate) text: &'a Text,
    pub(crate) count: u8,
    ghost sound: { is_formula count text.now.bytes.items ≡ true },
}

impl Formula<'_> {
    // Whether it holds on a set of marks.
    fn holds(self, marks: u16) -> bool
        ensures { result ≡ truth self.entry.count marks self.entry.text.now.bytes.items }
    {
        formula::evaluate(self.text.bytes.as_slice(), self.count, marks).unwrap_or(false)
    }

    // Where it holds, condition by condition.
    pub(crate) fn holding(self, heap: Global, conditions: &[u16]) -> Result<Vec<bool>, AllocError>
        ensures { IfOk result (λ v. v.items ≡ truths self.entry.count conditions.now self.entry.text.now.bytes.items) }
    {
        conditions
            .iter()
            .map(|marks| self.holds(*marks))
            .collect(heap)
    }
}

// Takes the flags out of a row that the other has not.
pub(crate) fn narrow(row: &mut [bool], other: &[bool])
    requires { length other.now ≡ length row.old }
    ensures { row.new ≡ both_rows row.old other.now }
{
    // Stays: by the condition's number, since of what is zipped with `iter_mut` a proof knows no element.
    for (c, flag) in row.iter_mut().enumerate() {
        *flag = *flag && other[c];
    }
}

// Where both rows have a flag.
pub(crate) fn both(heap: Global, a: &[bool], b: &[bool]) -> Result<Vec<bool>, AllocError>
    ensures rows { IfOk result (λ v. v.items ≡ both_rows a.now b.now) }
    ensures each { IfOk result (λ v. (c : ℕ) → has v.items c ≡ (has a.now c && has b.now c)) }
    ensures long { IfOk result (λ v. length a.now ≡ length b.now → length v.items ≡ length b.now) }
{
    a.iter().zip(b).map(|(a, b)| *a && *b).collect(heap)
}
