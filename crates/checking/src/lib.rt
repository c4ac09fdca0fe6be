// The calls `hold`, `check_trace` and `check_crate`, which the engine makes public: what is asked of a tolerance, a trace and a crate.
#![tactic(auto)]

pub mod checks;
pub mod hold;
