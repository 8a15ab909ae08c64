// A port: the conditions of a lock, the moves between them, and the requests of a programme.
#![tactic(auto)]

ghost use Rattle.std.specs.Prelude.{◌<◌, ◌≤◌, vec_len};
ghost use Rattle.port.specs.Numbers.{longest_text};

mod held;

pub use held::Port;

// The counts of a port, and the stage and the condition where it starts.
#[derive(Clone, Copy, Debug, PartialEq)]
pub struct Header {
    pub marks: u8,
    pub operations: u8,
    pub stages: u8,
    pub stage: u8,
    pub condition: u8,
}

// In this condition, this operation may have this outcome, which is a condition too.
#[derive(Clone, Copy, Debug, PartialEq)]
pub struct Move {
    pub condition: u8,
    pub operation: u8,
    pub outcome: u8,
    pub minutes: u16,
}

// The text of a formula: 1 to 63 bytes.
#[derive(Drop)]
pub struct Text {
    pub bytes: Vec<u8>,
    ghost some: { 0 < vec_len bytes },
    ghost few: { vec_len bytes ≤ longest_text },
}

// At stage `from`, the request to go on to stage `to`: keep to `keep` on the way, and end where `reach` holds.
#[derive(Drop)]
pub struct Request {
    pub from: u8,
    pub to: u8,
    pub keep: Text,
    pub reach: Text,
}
