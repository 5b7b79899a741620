// The final theorems and the examples: no code. specs/ has the statements, proofs/ the proofs.
#![tactic(auto)]
