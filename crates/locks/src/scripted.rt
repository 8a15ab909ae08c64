// A lock that goes where a script says.
ghost use Rattle.std.specs.Prelude.{◌≡◌, ℕ, true, false, drop, map as mapped, slice_index};
ghost use Rattle.port.specs.Model.{model_of};
ghost use Rattle.locks.specs.Targets.{Goes, GoesNth, named_by};
ghost use Rattle.locks.specs.Works.{InOrder, LockWorked, WorkedNth};

use crate::lock::Lock;
use crate::places::{condition_of, marks_of, moves_of};
use port::{Move, Port};

// The script has a byte for each operation that is accepted, which names the outcome.
#[derive(Drop)]
pub struct ScriptedLock<'a> {
    port: &'a Port,
    marks: u16,
    // What is left of the script.
    script: &'a [u8],
}

// The outcome among those of the moves that a byte names, where there is any.
fn named_outcome(moves: &[Move], byte: u8) -> Option<u8>
    ensures { result ≡ named_by byte (mapped (λ m. m.outcome) moves.now) }
{
    let n = (byte as usize).checked_rem(moves.len())?;
    Some(moves[n].outcome)
}

impl<'a> ScriptedLock<'a> {
    pub fn new(port: &'a Port, marks: u16, script: &'a [u8]) -> ScriptedLock<'a>
        ensures { (result.port ≡ port.entry) × (result.marks ≡ marks) × (result.script ≡ script.entry) }
    {
        ScriptedLock {
            port,
            marks,
            script,
        }
    }

    // The marks that the operation leads to by the next byte, or by 0 where the script is used up, where it is possible.
    fn target(&self, operation: u8) -> Option<u16>
        ensures goes { Goes (model_of self.now.port.now) self.now.marks operation result }
        ensures named { GoesNth (model_of self.now.port.now) self.now.marks operation (slice_index self.now.script.now 0) result }
    {
        let condition = condition_of(self.port, self.marks)?;
        let byte = self.script.first().copied().unwrap_or(0);
        let outcome = named_outcome(moves_of(self.port, condition, operation), byte)?;
        Some(marks_of(self.port, outcome))
    }
}

// Stays: the other lock has the first four methods too. One lock for both, generic in how it picks an outcome, would say by a ghost member
// of the picker what the clauses of `work` say here in plain words: which outcome the byte names.
impl<'a> Lock for ScriptedLock<'a> {
    ghost home = { λ s. model_of s.port.now };

    ghost present = { λ s. s.marks };

    // An accepted operation draws one byte of the script, which names the outcome.
    ghost works = { λ s o r t. (t.port ≡ s.port) × LockWorked (model_of s.port.now) s.marks o r t.marks × (r ≡ true → WorkedNth (model_of s.port.now) s.marks o (slice_index s.script.now 0) t.marks) × (r ≡ true → t.script.now ≡ drop 1 s.script.now) × (r ≡ false → t ≡ s) };

    fn marks(&self) -> u16 {
        self.marks
    }

    fn mark_count(&self) -> u8 {
        self.port.header.marks
    }

    fn operation_count(&self) -> u8 {
        self.port.header.operations
    }

    fn is_condition(&self, marks: u16) -> bool {
        condition_of(self.port, marks).is_some()
    }

    fn work(&mut self, operation: u8) -> bool
        ensures kept { model_of self.new.port.now ≡ model_of self.old.port.now }
        ensures worked { LockWorked (model_of self.old.port.now) self.old.marks operation result self.new.marks }
        ensures port { self.new.port ≡ self.old.port }
        ensures named { result ≡ true → WorkedNth (model_of self.old.port.now) self.old.marks operation (slice_index self.old.script.now 0) self.new.marks }
        ensures drawn { result ≡ true → self.new.script.now ≡ drop 1 self.old.script.now }
        ensures refused { result ≡ false → self.new ≡ self.old }
        ensures ordered { (c : ℕ) → InOrder (model_of self.old.port.now) c operation }
    {
        let Some(marks) = self.target(operation) else {
            return false;
        };
        self.marks = marks;
        self.script = self.script.get(1..).unwrap_or(&[]);
        true
    }
}
