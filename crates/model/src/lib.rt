// The definitions of HL3's hall log stand in specs/, their laws in proofs/. The code of this crate is the numbers of
// those definitions, each said once: the limits (specs/Hall), the kinds (specs/Kinds), the phases and the refusals; and the
// payload of an entry.

#![tactic(auto)]

pub mod kinds;
pub mod limits;
pub mod payload;
pub mod phases;
pub mod refusals;
