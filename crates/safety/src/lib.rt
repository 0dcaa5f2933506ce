// What admission is for: an accepted program's run never meets a register or a function that is not there, and a place that is not
// there only behind its function's last instruction. Theorems, without code: specs/ has the statements, proofs/ their proofs.
#![tactic(auto)]
