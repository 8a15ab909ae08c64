// A port as it is held: it keeps to every limit.
ghost use Rattle.std.specs.Prelude.{◌<◌, ◌≤◌, vec_len};
ghost use Rattle.port.specs.Limits.{KeepsWorded, Marked, MovesExist, MovesRise, ReachesWorded, Rise, Staged};
ghost use Rattle.port.specs.Numbers.{most_conditions, most_marks, most_moves, most_operations, most_requests, most_stages};

use crate::{Header, Move, Request};

mod make;

#[derive(Drop)]
pub struct Port {
    pub header: Header,
    // Sets of marks, as numbers: mark `a` is bit 0.
    pub conditions: Vec<u16>,
    pub moves: Vec<Move>,
    pub requests: Vec<Request>,
    ghost marks_some: { 0 < header.marks },
    ghost marks_few: { header.marks ≤ most_marks },
    ghost operations_some: { 0 < header.operations },
    ghost operations_few: { header.operations ≤ most_operations },
    ghost stages_some: { 0 < header.stages },
    ghost stages_few: { header.stages ≤ most_stages },
    ghost start_stage: { header.stage < header.stages },
    ghost start_condition: { header.condition < vec_len conditions },
    ghost conditions_few: { vec_len conditions ≤ most_conditions },
    ghost conditions_marked: { Marked header.marks conditions.items },
    ghost conditions_rise: { Rise conditions.items },
    ghost moves_few: { vec_len moves ≤ most_moves },
    ghost moves_exist: { MovesExist (vec_len conditions) header.operations moves.items },
    ghost moves_rise: { MovesRise moves.items },
    ghost requests_few: { vec_len requests ≤ most_requests },
    ghost requests_staged: { Staged header.stages requests.items },
    ghost keeps_worded: { KeepsWorded header.marks requests.items },
    ghost reaches_worded: { ReachesWorded header.marks requests.items },
}
