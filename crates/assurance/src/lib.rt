// Theorems about the engine's definitions, for whoever signs for it. There is no code here: specs/ has the statements, proofs/
// their proofs.
#![tactic(auto)]
