// Where a lock stands in a port, and which operations are possible there.
ghost use Rattle.std.specs.Prelude.{◌≡◌, map as mapped, slice_index};
ghost use Rattle.port.specs.Model.{Model, model_of};
ghost use Rattle.locks.specs.Places.{Lookups, place_of, possible};
ghost use Rattle.locks.specs.Works.{outcomes};

use port::{Move, Port};

// The number of the condition of the port with these marks, where there is one.
pub fn condition_of(port: &Port, marks: u16) -> Option<u8>
    ensures { result ≡ place_of (model_of port.now).conditions marks }
{
    let place = port.conditions.binary_search(&marks).ok()?;
    Some(place as u8)
}

// The moves of the operation in the condition: they stand together, in order of outcome.
// Stays: condition and operation as two parameters, as in the public `is_possible`: a pair would be made by each caller to be taken apart.
pub(crate) fn moves_of(port: &Port, condition: u8, operation: u8) -> &[Move]
    ensures { mapped (λ m. m.outcome) result.now ≡ outcomes (model_of port.now).moves condition operation }
{
    let wanted = (condition, operation);
    let start = port
        .moves
        .partition_point(|m| (m.condition, m.operation) < wanted);
    let end = port
        .moves
        .partition_point(|m| (m.condition, m.operation) <= wanted);
    &port.moves[start..end]
}

// Whether the operation is possible in the condition.
pub fn is_possible(port: &Port, condition: u8, operation: u8) -> bool
    ensures { result ≡ possible (model_of port.now).moves condition operation }
{
    !moves_of(port, condition, operation).is_empty()
}

// The marks of a condition of the port: where there is none, no marks.
pub(crate) fn marks_of(port: &Port, condition: u8) -> u16
    ensures { result ≡ slice_index (model_of port.now).conditions condition }
{
    port.conditions
        .get(condition as usize)
        .copied()
        .unwrap_or(0)
}

// What `condition_of` and `is_possible` look up is what is meant: the theorem is the contract.
pub fn lookups_stand()
    ensures { (M : Model) → Lookups M }
{}
