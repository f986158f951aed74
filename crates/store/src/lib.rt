// The stored form of a hall stands in specs/, its laws in proofs/. The code of this crate is the layout of that form.

#![tactic(auto)]

pub mod layout;
