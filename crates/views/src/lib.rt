// The live view and its laws over any link error: specs/ and proofs/ hold them all, and there is no code.
#![tactic(auto)]
