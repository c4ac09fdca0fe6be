// The commands of a record (document 01, "The record") as they are read: their numbers (numbers), one command (command), the header (headers),
// a step (steps), and all steps (passes).
#![tactic(auto)]

use tolerance::Parts;

// What a record says: the number of its samples and its tolerance.
#[derive(Clone, Copy)]
pub struct Content {
    pub samples: usize,
    pub tolerance: Parts,
}

pub mod command;
pub mod headers;
pub mod numbers;
pub mod passes;
pub mod steps;
