// Walk at several tolerances in one pass (passes).
#![tactic(auto)]

// How many samples each tolerance keeps, in the tolerances' order; 0 behind the last.
#[derive(Clone, Copy)]
pub struct Kept {
    pub counts: [usize; 16],
}

pub mod passes;
