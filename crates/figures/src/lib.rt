// The figures of documents 01 and 02 as theorems over the definitions: they are in proofs/, and there is no code.
#![tactic(auto)]
