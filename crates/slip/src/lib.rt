// Above layer 4: release slips (02, #101), one file for each order: fields, the signed message and the signature.
#![tactic(auto)]

pub mod read;
mod size;
pub mod write;
