// Above layer 4: what a signing call and a signature take (02, #103), told before buffers are made.
#![tactic(auto)]

pub mod count;
pub mod lengths;
