// One program run twice, in different lent memory. Theorems, without code: specs/ has the statements, proofs/ their proofs.
#![tactic(auto)]
