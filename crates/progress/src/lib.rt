// What a settle comes to (02, A5): it ends, in how many steps, never with 40 on a hall reached from opening, and with the log
// complete at the members. This crate has no code of its own: proofs/ has the laws.

#![tactic(auto)]
