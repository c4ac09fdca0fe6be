// The lines of a kept list beside those of its trace, and the heights, means and areas read off them: specs/ and proofs/ hold them all, and there is no code.
#![tactic(auto)]
