// What a cost model is.
ghost use Rattle.std.specs.Prelude.{◌≡◌, ℕ, not, List, length, slice_index};
ghost use Rattle.costs.specs.Costs.{Joinable, Laws, Model};

use port::Move;

// What a cost model is called in print.
pub trait Named {
    const NAME: &'static str;
}

pub trait CostModel: Named {
    type Cost: Copy;

    // How many numbers a cost has.
    const COLUMNS: usize;

    // The exact costs, and what each `impl` must prove of them.
    ghost model: { Model };

    ghost laws: { Laws model };

    ghost COLUMNS: { ℕ };

    ghost counted: { COLUMNS ≡ model.columns };

    // The exact cost that a cost of the program stands for.
    ghost exact: { Self.Cost → List ℕ };

    fn zero() -> Self::Cost
        ensures { exact result ≡ model.zero };

    // The cost of a move and then of what follows it, exact where no more than 255 moves are joined with it.
    fn join(m: &Move, c: Self::Cost) -> Self::Cost
        ensures { Joinable model (exact c) → exact result ≡ model.join m.now (exact c) };

    fn less(a: Self::Cost, b: Self::Cost) -> bool
        ensures { result ≡ not (model.within (exact b) (exact a)) };

    // The number in column `i` of a cost: past the last, 0.
    fn column(c: Self::Cost, i: usize) -> u32
        ensures { result ≡ slice_index (exact c) i };

    ghost sized: { (c : Self.Cost) → length (exact c) ≡ model.columns };
}
