// The text of a formula: sums of products of atoms, over bytes. Readers of the three call each other.
#![tactic(auto)]

ghost use Rattle.std.specs.Prelude.{◌≡◌, ℕ, ◌≤◌, true, false, length, MatchOption, MatchResult};
ghost use Rattle.formula.specs.Grammar.{
  AtomRead,
  NoFormula,
  ProductRead,
  Refused,
  Stands,
  SumRead,
  Whole,
  stands,
  stuck,
  verdict,
  whole,
};
ghost use Rattle.std.specs.Bool.{MatchBool};
ghost use Rattle.formula.specs.Truth.{is_formula, truth};

// The first place where no formula goes on, or the end of a text that is the beginning of one.
#[derive(Clone, Copy, Debug, PartialEq)]
pub struct FormulaFault {
    pub place: usize,
}

// Whether mark number `k` is among the marks.
fn stands_in(marks: u16, k: u8) -> bool
    ensures { result ≡ stands marks k }
{
    k < 16 && marks >> k & 1 == 1
}

// A text over `count` marks, of which `marks` stand.
#[derive(Clone, Copy)]
struct Marked<'a> {
    text: &'a [u8],
    count: u8,
    marks: u16,
}

// Stays: the place as a parameter, and the text by reference, which every reader hands on as it is: in one struct with the text each
// reader would have a copy of its own, on a stack that grows with each `!`, `(`, `&` and `|`.
impl Marked<'_> {
    // The byte at a place, or none at the end.
    fn byte(&self, place: usize) -> Option<u8>
        ensures { MatchOption result (length self.now.text.now ≤ place) (Stands self.now.text.now place) }
    {
        self.text.get(place).copied()
    }

    // Whether this byte stands at that place.
    fn has(&self, place: usize, byte: u8) -> bool
        ensures { MatchBool result (Stands self.now.text.now place byte) (Stands self.now.text.now place byte → ⊥) }
    {
        self.text.get(place) == Some(&byte)
    }

    // The atom at `place`: 0, 1, a letter, an atom after `!`, or a sum in brackets; its value and the place after it.
    #[cycle(read_atom_read_product_read_sum)]
    fn read_atom(&self, place: usize) -> Result<(bool, usize), FormulaFault>
        requires { place ≤ length self.now.text.now }
        ensures { MatchResult result (λ x. AtomRead self.now.count self.now.marks self.now.text.now place x.0 x.1) (λ e. Refused self.now.count self.now.text.now place e.place) }
    {
        let Some(byte) = self.byte(place) else {
            return Err(FormulaFault { place });
        };
        let next = place + 1;
        match byte {
            b'0' => Ok((false, next)),
            b'1' => Ok((true, next)),
            b'!' => {
                let (value, after) = self.read_atom(next)?;
                Ok((!value, after))
            }
            b'(' => {
                let (value, after) = self.read_sum(next)?;
                if self.has(after, b')') {
                    Ok((value, after + 1))
                } else {
                    Err(FormulaFault { place: after })
                }
            }
            b'a'..=u8::MAX => {
                let mark = byte - b'a';
                if mark < self.count {
                    Ok((stands_in(self.marks, mark), next))
                } else {
                    Err(FormulaFault { place })
                }
            }
            _ => Err(FormulaFault { place }),
        }
    }

    // Stays: two readers of one form, for products and for sums. One for both would ask at each of its three steps
    // which of the two it is: which reader is below, which byte stands between, and how two values are joined.

    // The longest product at `place`: atoms with `&` between them.
    #[cycle(read_atom_read_product_read_sum)]
    fn read_product(&self, place: usize) -> Result<(bool, usize), FormulaFault>
        requires { place ≤ length self.now.text.now }
        ensures { MatchResult result (λ x. ProductRead self.now.count self.now.marks self.now.text.now place x.0 x.1) (λ e. Refused self.now.count self.now.text.now place e.place) }
    {
        let (value, after) = self.read_atom(place)?;
        if self.has(after, b'&') {
            let (more, end) = self.read_product(after + 1)?;
            return Ok((value && more, end));
        }
        Ok((value, after))
    }

    // The longest sum at `place`: products with `|` between them.
    #[cycle(read_atom_read_product_read_sum)]
    fn read_sum(&self, place: usize) -> Result<(bool, usize), FormulaFault>
        requires { place ≤ length self.now.text.now }
        ensures { MatchResult result (λ x. SumRead self.now.count self.now.marks self.now.text.now place x.0 x.1) (λ e. Refused self.now.count self.now.text.now place e.place) }
    {
        let (value, after) = self.read_product(place)?;
        if self.has(after, b'|') {
            let (more, end) = self.read_sum(after + 1)?;
            return Ok((value || more, end));
        }
        Ok((value, after))
    }
}

// The value of the formula on the marks, or the first place where no formula goes on.
pub fn evaluate(text: &[u8], count: u8, marks: u16) -> Result<bool, FormulaFault>
    ensures { MatchResult result (λ v. Whole count marks text.now v × (v ≡ truth count marks text.now) × (is_formula count text.now ≡ true)) (λ e. NoFormula count text.now e.place × (verdict count text.now ≡ stuck e.place) × (is_formula count text.now ≡ false)) }
{
    let (value, end) = Marked { text, count, marks }.read_sum(0)?;
    // Stays: two numbers are compared, and no byte is wanted of that place.
    if end < text.len() {
        return Err(FormulaFault { place: end });
    }
    Ok(value)
}

// Whether the text is a formula over that many marks, or the first place where no formula goes on.
pub fn check(text: &[u8], count: u8) -> Result<(), FormulaFault>
    ensures { MatchResult result (λ _. (verdict count text.now ≡ whole) × (is_formula count text.now ≡ true) × ((m : ℕ) → Whole count m text.now (truth count m text.now))) (λ e. (verdict count text.now ≡ stuck e.place) × (e.place ≤ length text.now) × NoFormula count text.now e.place) }
{
    evaluate(text, count, 0)?;
    Ok(())
}
