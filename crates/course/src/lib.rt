// A run as its steps: theorems about the definitions of exec, without code. specs/ has the statements, proofs/ their proofs.
#![tactic(auto)]
