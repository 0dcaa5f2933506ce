// How firm the contracts are. Theorems, without code: specs/ has the statements, proofs/ their proofs.
#![tactic(auto)]
