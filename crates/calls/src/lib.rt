// What the calls on lent bytes answer and leave, as definitions, and what is proved of them. This crate has no code of its
// own: specs/ has the statements, proofs/ their proofs.

#![tactic(auto)]
