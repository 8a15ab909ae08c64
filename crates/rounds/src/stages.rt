// A port's stages as the rounds see them.
ghost use Rattle.std.specs.Prelude.{◌≡◌, ℕ, ◌<◌, length, IfOk, cond, not, ◌&&◌, vec_len, slice_index};
ghost use Rattle.plans.specs.Flags.{has};
ghost use Rattle.rounds.specs.Stages.{IsNew, Even, NarrowedBy, SettledBy, StagesNew};

use crate::rows::narrow;
use std::alloc::{AllocError, Global};

// A stage: rows by condition for its pairs.
// Stays: rows beside each other, and not a row of pairs, since a goal is made of one of them as a slice of flags.
#[derive(Drop)]
pub(crate) struct Stage {
    // The pairs that are left.
    pub(crate) alive: Vec<bool>,
    // Those of them that this round leaves, as far as it has come.
    pub(crate) next: Vec<bool>,
    // The round that took each of the others out, and 0 for those that are left.
    pub(crate) ranks: Vec<u16>,
    // Whether the last round took one out.
    pub(crate) lost: bool,
}

// Notes the round at the pairs that it takes out.
fn note(alive: &[bool], next: &[bool], round: u16, ranks: &mut [u16])
    requires alive { length alive.now ≡ length ranks.old }
    requires next { length next.now ≡ length ranks.old }
    ensures { (c : ℕ) → c < length ranks.old → slice_index ranks.new c ≡ cond (has alive.now c && not (has next.now c)) round (slice_index ranks.old c) }
{
    // Stays: by the condition's number, since of what is zipped with `iter_mut` a proof knows no element.
    for (c, rank) in ranks.iter_mut().enumerate() {
        if alive[c] && !next[c] {
            *rank = round;
        }
    }
}

impl Stage {
    // With every pair left, and each request to be searched.
    fn new(heap: Global, width: usize) -> Result<Stage, AllocError>
        ensures { IfOk result (λ s. IsNew width s) }
    {
        Ok(Stage {
            alive: vec![in heap; true; width]?,
            next: vec![in heap; true; width]?,
            ranks: vec![in heap; 0; width]?,
            lost: true,
        })
    }

    // Takes out of what this round leaves the pairs from which a request is not served.
    pub(crate) fn narrow(&mut self, served: &[bool])
        requires { length served.now ≡ length self.old.next.items }
        ensures { NarrowedBy served.now self.old self.new }
    {
        narrow(&mut self.next, served);
    }

    // Ends a round of this number.
    pub(crate) fn settle(&mut self, round: u16)
        requires { Even self.old }
        ensures { SettledBy round self.old self.new }
    {
        self.lost = self.alive != self.next;
        note(&self.alive, &self.next, round, &mut self.ranks);
        self.alive.copy_from_slice(&self.next);
    }
}

// So many stages, each with as many pairs as there are conditions.
pub(crate) fn stages_of(
    heap: Global,
    stages: usize,
    conditions: usize,
) -> Result<Vec<Stage>, AllocError>
    ensures { IfOk result (λ v. StagesNew stages conditions v.items) }
{
    (0..stages)
        .map(|_| Stage::new(heap, conditions))
        .try_collect(heap)
}
