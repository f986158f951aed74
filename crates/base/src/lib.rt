// Definitions that several crates share stand in specs/, their laws in proofs/. This crate has no code of its own.

#![tactic(auto)]
