// How much lent memory is enough, for every program. Theorems, without code: specs/ has the statements, proofs/ their proofs.
#![tactic(auto)]
