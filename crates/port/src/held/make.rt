// How a port begins.
ghost use Rattle.std.specs.Prelude.{◌≡◌, IfOk};
ghost use Rattle.port.specs.Model.{first, model_of};

use super::Port;
use crate::Header;
use std::alloc::{AllocError, Global};

impl Port {
    // The port before any load: one mark, one operation, one stage and the condition without marks.
    pub fn new(heap: Global) -> Result<Port, AllocError>
        ensures { IfOk result (λ p. model_of p ≡ first) }
    {
        let header = Header {
            marks: 1,
            operations: 1,
            stages: 1,
            stage: 0,
            condition: 0,
        };
        let mut conditions = Vec::new(heap);
        conditions.push(0)?;
        Ok(Port {
            header,
            conditions,
            moves: Vec::new(heap),
            requests: Vec::new(heap),
        })
    }
}
