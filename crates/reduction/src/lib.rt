// Reductions of a checked trace: walk (walks) and gallop (gallops).
#![tactic(auto)]

// How many samples gallop kept, and the probes that it made.
#[derive(Clone, Copy)]
pub struct Galloped {
    pub kept: usize,
    pub probes: usize,
}

pub mod gallops;
pub mod walks;
