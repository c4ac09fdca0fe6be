// The public calls. None has a requirement: each states its outcome for every input, and declines by the table of document 01.
#![tactic(auto)]

pub mod checks;
pub mod expand;
pub mod expand_with;
pub mod gallop;
pub mod hold;
pub mod judge;
pub mod judge_greedy;
pub mod least;
pub mod measure;
pub mod minimum;
pub mod read;
pub mod report;
pub mod same;
pub mod scan;
pub mod sum;
pub mod view;
pub mod walk;
pub mod write;
