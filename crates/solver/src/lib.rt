// Solves a port: ranks its pairs, and fills a policy for its requests, under any lawful cost model.
#![tactic(auto)]

ghost use Rattle.std.specs.Prelude.{◌≡◌, Some};
ghost use Rattle.solver.specs.Policy.{entry_byte, entry_text};
ghost use Rattle.solver.specs.Solving.{solve_error_number, solve_error_text};

mod policy;
mod solution;
mod write;

pub use solution::{has_room, pair_count, place_count, solve, solved};
use std::error::Error;
use std::fmt;

// What the policy says for a request in a condition: no plan, stop here, or work this operation.
// Stays: three cases, which readers group in different ways, so that no one Option fits. It is search's `Choice` without the cost, since
// entries and costs stand in two buffers of a caller.
#[derive(Clone, Copy, Debug, PartialEq)]
pub enum Entry {
    None,
    There,
    Work(u8),
}

impl Entry {
    // The byte by which an entry is known: 255 for none, 254 for there, else the operation.
    // Stays: a rule of the project: docs/CALLS.md knows an entry by this byte.
    pub fn byte(self) -> u8
        ensures { result ≡ entry_byte self }
    {
        match self {
            Entry::None => 255,
            Entry::There => 254,
            Entry::Work(operation) => operation,
        }
    }
}

impl fmt::Display for Entry {
    ghost output = { λ e. Some (entry_text e) };

    fn fmt<W: fmt::Write>(&self, f: &mut fmt::Formatter<W>) -> fmt::Result {
        match self {
            Entry::None => write!(f, "none"),
            Entry::There => write!(f, "there"),
            Entry::Work(operation) => write!(f, "work {operation}"),
        }
    }
}

// What a solved port comes to: how many pairs are kept, the largest rank, and the rank of the start.
#[derive(Clone, Copy, Debug, PartialEq)]
pub struct Summary {
    pub kept: usize,
    pub rounds: u16,
    pub start: u16,
}

// The tables of a solved port, whole: entries and costs by request, ranks by stage, and then each by condition; and what they come to.
// Stays: entries and costs apart, a rule of the project: they are copied to two buffers of a caller.
#[derive(Drop)]
pub struct Tables<K: Copy> {
    pub entries: Vec<Entry>,
    pub costs: Vec<K>,
    pub ranks: Vec<u16>,
    pub summary: Summary,
}

// Why a port was not solved: a buffer is too short for it, or there was no memory.
#[derive(Clone, Copy, Debug, PartialEq)]
pub enum SolveError {
    Short,
    Memory,
}

impl SolveError {
    // The number of a refusal; want of memory has none.
    // Stays: a rule of the project: docs/CALLS.md knows this refusal by its number.
    pub fn number(self) -> Option<u8>
        ensures { result ≡ solve_error_number self }
    {
        match self {
            SolveError::Short => Some(12),
            SolveError::Memory => None,
        }
    }
}

impl fmt::Display for SolveError {
    ghost output = { λ e. Some (solve_error_text e) };

    fn fmt<W: fmt::Write>(&self, f: &mut fmt::Formatter<W>) -> fmt::Result {
        match self.number() {
            Some(number) => write!(f, "refused {number}"),
            None => write!(f, "no memory"),
        }
    }
}

impl Error for SolveError {}
