// What a lock is to whoever works it.
ghost use Rattle.std.specs.Prelude.{◌≡◌, ℕ, Bool};
ghost use Rattle.port.specs.Model.{Model};
ghost use Rattle.locks.specs.Works.{LockWorked, TellsCondition};

pub trait Lock {
    // The port that the lock belongs to, and its present marks.
    ghost home: { Self → Model };

    ghost present: { Self → ℕ };

    // Worked once with an operation, the lock itself goes from one state to another, and accepts or not: also what it has beside its marks.
    // A lock that does not define it tells no more of itself than its port and marks.
    ghost works: { Self → ℕ → Bool → Self → Type 0 } = { λ _ _ _ _. Unit {0} };

    fn marks(&self) -> u16
        ensures { result ≡ present self.now };

    fn mark_count(&self) -> u8
        ensures { result ≡ (home self.now).header.marks };

    fn operation_count(&self) -> u8
        ensures { result ≡ (home self.now).header.operations };

    // Whether these marks are those of a condition of the port.
    fn is_condition(&self, marks: u16) -> bool
        ensures { TellsCondition (home self.now) marks result };

    // Works an operation, and tells whether it was accepted.
    fn work(&mut self, operation: u8) -> bool
        ensures kept { home self.new ≡ home self.old }
        ensures worked { LockWorked (home self.old) (present self.old) operation result (present self.new) }
        ensures itself { works self.old operation result self.new };
}
