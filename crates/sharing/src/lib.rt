// Layer 3, sharing: the mask generator, zero encodings, refreshing, noise and sums of shares (000, 2.4.5 and 2.4.7).
#![tactic(auto)]

pub mod encoding;
pub mod masks;
pub mod noise;
pub mod region;
pub mod repeat;
pub mod shares;
