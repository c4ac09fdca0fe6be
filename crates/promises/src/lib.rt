// What follows from the contracts of the public calls for those who use their answers: specs/ and proofs/ hold it all, and there is no code.
#![tactic(auto)]
