// The calls `judge` and `measure`, which the engine makes public.
#![tactic(auto)]

use measures::Measure;

// What `judge` says of a list: every link is valid; or not, with the position of the first that is not and where it strays.
#[derive(Clone, Copy)]
pub enum Verdict {
    Yes,
    No(usize, Measure),
}

pub mod judge;
pub mod measure;
