// Layer 1, hash: the parameter table of paper 000, Keccak-f[1600] and SHAKE256 of FIPS 202.
#![tactic(auto)]

pub mod endian;
pub mod keccak;
pub mod params;
pub mod refusal;
pub mod shake;
