// Layer 4, signature: byte forms (000, 2.5), challenges (2.4.6), bounds (2.4.4), the matrix (2.4.3), masked products,
// keys (2.3.1), signing (2.3.2) and verifying (2.3.3).
#![tactic(auto)]

mod attempt;
mod bits;
pub mod bounds;
pub mod challenge;
pub mod code;
mod commit;
mod compress;
mod digest;
mod fields;
mod form;
mod int;
mod keycheck;
pub mod keyform;
pub mod keygen;
pub mod keys;
mod layout;
pub mod lengths;
mod lent;
mod load;
mod masked;
mod matrix;
mod noise;
mod recover;
mod residues;
mod respond;
pub mod row;
pub mod sign;
mod signcheck;
mod vector;
pub mod verify;
