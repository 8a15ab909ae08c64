// A lock that goes to the outcome that changes the fewest marks.
ghost use Rattle.std.specs.Prelude.{◌≡◌, true, false};
ghost use Rattle.port.specs.Model.{model_of};
ghost use Rattle.locks.specs.Targets.{Goes, GoesLeast, Nearest};
ghost use Rattle.locks.specs.Works.{LockWorked, WorkedLeast, change, outcomes};

use crate::lock::Lock;
use crate::places::{condition_of, marks_of, moves_of};
use port::Port;

#[derive(Drop)]
pub struct LeastChangeLock<'a> {
    port: &'a Port,
    marks: u16,
}

// How many marks differ between two conditions.
fn difference(port: &Port, from: u8, to: u8) -> u32
    ensures { result ≡ change (model_of port.now) from to }
{
    (marks_of(port, from) ^ marks_of(port, to)).count_ones()
}

// The outcome of the operation that changes the fewest marks, the lowest-numbered among equals, where there is any.
fn nearest(port: &Port, condition: u8, operation: u8) -> Option<u8>
    ensures { Nearest (change (model_of port.now) condition) (outcomes (model_of port.now).moves condition operation) result }
{
    let moves = moves_of(port, condition, operation);
    moves
        .iter()
        .min_by_key(|m| (difference(port, condition, m.outcome), m.outcome))
        .map(|m| m.outcome)
}

impl<'a> LeastChangeLock<'a> {
    pub fn new(port: &'a Port, marks: u16) -> LeastChangeLock<'a>
        ensures { (result.port ≡ port.entry) × (result.marks ≡ marks) }
    {
        LeastChangeLock { port, marks }
    }

    // The marks that the operation leads to, where it is possible.
    fn target(&self, operation: u8) -> Option<u16>
        ensures goes { Goes (model_of self.now.port.now) self.now.marks operation result }
        ensures least { GoesLeast (model_of self.now.port.now) self.now.marks operation result }
    {
        let condition = condition_of(self.port, self.marks)?;
        let outcome = nearest(self.port, condition, operation)?;
        Some(marks_of(self.port, outcome))
    }
}

// Stays: beside the other lock, which has the first four methods too: one lock for both would say by a ghost member which outcome it takes.
impl<'a> Lock for LeastChangeLock<'a> {
    ghost home = { λ s. model_of s.port.now };

    ghost present = { λ s. s.marks };

    // An accepted operation changes the fewest marks.
    ghost works = { λ s o r t. (t.port ≡ s.port) × LockWorked (model_of s.port.now) s.marks o r t.marks × (r ≡ true → WorkedLeast (model_of s.port.now) s.marks o t.marks) × (r ≡ false → t ≡ s) };

    fn marks(&self) -> u16 {
        self.marks
    }

    fn mark_count(&self) -> u8 {
        self.port.header.marks
    }

    fn operation_count(&self) -> u8 {
        self.port.header.operations
    }

    fn is_condition(&self, marks: u16) -> bool {
        condition_of(self.port, marks).is_some()
    }

    fn work(&mut self, operation: u8) -> bool
        ensures kept { model_of self.new.port.now ≡ model_of self.old.port.now }
        ensures worked { LockWorked (model_of self.old.port.now) self.old.marks operation result self.new.marks }
        ensures port { self.new.port ≡ self.old.port }
        ensures least { result ≡ true → WorkedLeast (model_of self.old.port.now) self.old.marks operation self.new.marks }
        ensures refused { result ≡ false → self.new ≡ self.old }
    {
        let Some(marks) = self.target(operation) else {
            return false;
        };
        self.marks = marks;
        true
    }
}
