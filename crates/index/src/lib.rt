// A port with an index of the moves from a condition and of those into one: made once for all searches.
#![tactic(auto)]

ghost use Rattle.std.specs.Prelude.{◌≡◌, false, vec_len};
ghost use Rattle.index.specs.Indexes.{Apart, Bare, Flags, From, Rows, Timed, row};

mod build;

use port::{Move, Port};

#[derive(Drop)]
pub struct MoveIndex<'a> {
    port: &'a Port,
    // For each condition the moves from it.
    rows: Vec<&'a [Move]>,
    // A row for each outcome: whether a move leads to it from a condition.
    into: Vec<[bool; 256]>,
    ghost timed: { Timed port.now.moves.items },
    ghost counted: { vec_len rows ≡ vec_len port.now.conditions },
    ghost parted: { Rows (vec_len port.now.conditions) port.now.moves.items rows.items },
    ghost wide: { vec_len into ≡ vec_len port.now.conditions },
    ghost flags: { Flags port.now.moves.items (vec_len port.now.moves) into.items },
    ghost bare: { Bare port.now.moves.items (vec_len port.now.moves) into.items },
}

impl<'a> MoveIndex<'a> {
    pub fn conditions(&self) -> usize
        ensures { result ≡ vec_len self.now.port.now.conditions }
    {
        self.port.conditions.len()
    }

    pub fn stages(&self) -> usize
        ensures { result ≡ self.now.port.now.header.stages }
    {
        self.port.header.stages as usize
    }

    // The moves from a condition, in order of operation: none where there is no such condition.
    pub fn moves_from(&self, c: usize) -> &[Move]
        ensures from { From self.now.port.now.moves.items c result.now }
        ensures row { result.now ≡ row c self.now.port.now.moves.items }
    {
        // Stays: tried as one expression: it is not covered where a row is lent for less than the port's lifetime.
        let row: &'a [Move] = self.rows.get(c).copied().unwrap_or(&[]);
        row
    }

    // Whether some move may lead from condition `c` to `d`.
    pub fn leads(&self, c: usize, d: usize) -> bool
        ensures apart { result ≡ false → Apart self.now.port.now.moves.items c d }
        ensures bare { Apart self.now.port.now.moves.items c d → result ≡ false }
    {
        self.into
            .get(d)
            .and_then(|row| row.get(c))
            .copied()
            .unwrap_or(false)
    }
}
