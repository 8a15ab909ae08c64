// The two cost models that there are.
ghost use Rattle.std.specs.Prelude.{◌≡◌, ◌+◌, ◌^◌, ◌<◌, ◌≤◌, refl};
ghost use Rattle.port.specs.Numbers.{minutes_end};
ghost use Rattle.costs.specs.Models.{count_list, count_sized, minutes_laws, minutes_model, moves_laws, moves_model, time_list, time_sized};

use crate::model::{CostModel, Named};
use port::Move;

#[derive(Clone, Copy, Debug, PartialEq, Eq, PartialOrd, Ord)]
pub struct Count {
    pub moves: u32,
}

#[derive(Clone, Copy, Debug, PartialEq, Eq, PartialOrd, Ord)]
pub struct Time {
    pub minutes: u32,
    pub moves: u32,
}

// Minutes added to a sum: exact while that fits.
fn add_minutes(sum: u32, minutes: u16) -> u32
    ensures { sum + minutes < 2 ^ 32 → result ≡ sum + minutes }
{
    sum.saturating_add(u32::from(minutes))
}

// A run costs its moves.
pub struct MoveCount;

// A run costs its minutes, and where those tie its moves.
pub struct Minutes;

impl Named for MoveCount {
    const NAME: &'static str = "moves";
}

impl CostModel for MoveCount {
    type Cost = Count;

    const COLUMNS: usize = 1;

    ghost COLUMNS = { 1 };

    ghost counted = { refl };

    ghost model = { moves_model };

    ghost laws = { moves_laws };

    ghost exact = { count_list };

    ghost sized = { count_sized };

    fn zero() -> Count {
        Count { moves: 0 }
    }

    // Whatever the run, exact while the sum fits.
    fn join(_m: &Move, c: Count) -> Count
        ensures joined { c.moves + 1 < 2 ^ 32 → result.moves ≡ c.moves + 1 }
    {
        let moves = c.moves.saturating_add(1);
        Count { moves }
    }

    fn less(a: Count, b: Count) -> bool {
        a < b
    }

    fn column(c: Count, i: usize) -> u32 {
        match i {
            0 => c.moves,
            _ => 0,
        }
    }
}

impl Named for Minutes {
    const NAME: &'static str = "minutes";
}

impl CostModel for Minutes {
    type Cost = Time;

    const COLUMNS: usize = 2;

    ghost COLUMNS = { 2 };

    ghost counted = { refl };

    ghost model = { minutes_model };

    ghost laws = { minutes_laws };

    ghost exact = { time_list };

    ghost sized = { time_sized };

    fn zero() -> Time {
        Time {
            minutes: 0,
            moves: 0,
        }
    }

    // Whatever the run, exact while the sums fit with any move.
    fn join(m: &Move, c: Time) -> Time
        ensures joined { c.minutes + minutes_end ≤ 2 ^ 32 → c.moves + 1 < 2 ^ 32 → (result.minutes ≡ c.minutes + m.now.minutes) × (result.moves ≡ c.moves + 1) }
    {
        Time {
            minutes: add_minutes(c.minutes, m.minutes),
            moves: c.moves.saturating_add(1),
        }
    }

    fn less(a: Time, b: Time) -> bool {
        a < b
    }

    fn column(c: Time, i: usize) -> u32 {
        match i {
            0 => c.minutes,
            1 => c.moves,
            _ => 0,
        }
    }
}
