// A policy as it is handed to a controller.
ghost use Rattle.std.specs.Prelude.{◌≡◌};

use solver::{Entry, Tables};

// Entries and costs by request, ranks by stage, and then each by condition: the buffers that solving fills.
// Stays: a rule of the project: a controller takes any caller's tables, as slices; solver's `Tables` owns its own.
#[derive(Clone, Copy)]
pub struct Policy<'a, K> {
    pub entries: &'a [Entry],
    pub costs: &'a [K],
    pub ranks: &'a [u16],
}

// The policy of a solved port's tables.
impl<'a, K: Copy> From<&'a Tables<K>> for Policy<'a, K> {
    ghost from_gives = { λ t p. (p.entries.now ≡ t.now.entries.items) × (p.costs.now ≡ t.now.costs.items) × (p.ranks.now ≡ t.now.ranks.items) };

    fn from(tables: &'a Tables<K>) -> Policy<'a, K> {
        Policy {
            entries: &tables.entries,
            costs: &tables.costs,
            ranks: &tables.ranks,
        }
    }
}
