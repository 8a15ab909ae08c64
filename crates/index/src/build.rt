// How the index of a port is made.
ghost use Rattle.std.specs.Prelude.{◌≡◌, ℕ, ◌-◌, ◌<◌, ◌≤◌, length, IfOk, vec_len};
ghost use Rattle.port.specs.Limits.{at};
ghost use Rattle.index.specs.Indexed.{port_of};
ghost use Rattle.index.specs.Indexes.{Bare, Flags, Rows, Start, Timed};

use super::MoveIndex;
use port::{Move, Port};
use std::alloc::{AllocError, Global};

fn minutes_of(m: &Move) -> u16
    ensures { result ≡ m.now.minutes }
{
    m.minutes
}

// The minutes of every move are small, as their type says: the loop does nothing but show it.
// Stays: tried without the call, by reading the field into a local and by taking each move apart: no range of it is known then.
fn bound_minutes(moves: &[Move])
    ensures { Timed moves.now }
{
    for m in moves {
        minutes_of(m);
    }
}

// How many moves at the front are from a condition below `c`.
fn below_front(moves: &[Move], c: usize) -> usize
    ensures inside { result ≤ length moves.now }
    ensures behind { (i : ℕ) → i < result → (at moves.now i).condition < c }
    ensures next { result < length moves.now → c ≤ (at moves.now result).condition }
{
    let other = moves.iter().position(|m| m.condition as usize >= c);
    other.unwrap_or(moves.len())
}

// Where the moves of condition `c` begin, if those of the one before it begin at `from`; for the first, `from` is 0.
fn start_of(port: &Port, from: usize, c: usize) -> usize
    requires { Start port.now.moves.items (c - 1) from }
    ensures { Start port.now.moves.items c result }
{
    from + below_front(&port.moves[from..], c)
}

// For each condition the moves from it.
// Stays: by the condition's number, since each row begins where the one before it ends, and a condition may have no moves.
fn rows_of<'a>(heap: Global, port: &'a Port) -> Result<Vec<&'a [Move]>, AllocError>
    ensures { IfOk result (λ v. (vec_len v ≡ vec_len port.now.conditions) × Rows (vec_len port.now.conditions) port.now.moves.items v.items) }
{
    let mut rows = Vec::with_capacity(heap, port.conditions.len())?;
    let mut start = start_of(port, 0, 0);
    for c in 0..port.conditions.len() {
        let end = start_of(port, start, c + 1);
        rows.push(&port.moves[start..end])?;
        start = end;
    }
    Ok(rows)
}

// For each outcome, from which conditions a move leads to it.
fn into_of(heap: Global, port: &Port) -> Result<Vec<[bool; 256]>, AllocError>
    ensures { IfOk result (λ v. (vec_len v ≡ vec_len port.now.conditions) × Flags port.now.moves.items (vec_len port.now.moves) v.items × Bare port.now.moves.items (vec_len port.now.moves) v.items) }
{
    let mut into = vec![in heap; [false; 256]; port.conditions.len()]?;
    for m in &port.moves {
        into[m.outcome as usize][m.condition as usize] = true;
    }
    Ok(into)
}

impl<'a> MoveIndex<'a> {
    // The index of a port.
    pub fn new(heap: Global, port: &'a Port) -> Result<MoveIndex<'a>, AllocError>
        ensures { IfOk result (λ index. port_of index ≡ port.now) }
    {
        bound_minutes(&port.moves);
        let rows = rows_of(heap, port)?;
        let into = into_of(heap, port)?;
        Ok(MoveIndex { port, rows, into })
    }
}
