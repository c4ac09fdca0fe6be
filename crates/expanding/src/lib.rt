// The calls `expand` and `expand_with`, which the engine makes public.
#![tactic(auto)]

pub mod expand;
pub mod expand_with;
