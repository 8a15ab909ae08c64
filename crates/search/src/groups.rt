// Moves in order of operation, taken an operation at a time.
ghost use Rattle.std.specs.Prelude.{◌≡◌, length, MatchOption};
ghost use Rattle.std.specs.Iterator.{at_most};
ghost use Rattle.index.specs.Indexes.{Ordered};
ghost use Rattle.search.specs.Groups.{Same, Splits};

use port::Move;

// The moves that are left. An item has all of those by the lowest operation.
// Stays: an iterator of one's own. A slice's `chunk_by` gives the same items, but tells of them by its closure, which no invariant of a
// loop over it can name.
#[derive(Drop)]
pub(crate) struct Groups<'a> {
    pub(crate) rest: &'a [Move],
    ghost ordered: { Ordered rest.now },
}

// How many moves at the front are by an operation.
fn same_front(moves: &[Move], operation: u8) -> usize
    ensures { Same moves.now operation result }
{
    let other = moves.iter().position(|m| m.operation != operation);
    other.unwrap_or(moves.len())
}

impl<'a> Iterator for Groups<'a> {
    type Item = &'a [Move];

    ghost next_gives = { λ s r t. MatchOption r (length s.rest.now ≡ 0) (λ group. Splits s.rest.now group.now t.rest.now) };

    ghost remaining = { λ s. at_most (length s.rest.now) };

    fn next(&mut self) -> Option<&'a [Move]> {
        let first = self.rest.first()?;
        let end = same_front(self.rest, first.operation);
        let (group, rest) = self.rest.split_at(end);
        self.rest = rest;
        Some(group)
    }
}
