// Layer 2, ring: polynomials of 512 coefficients modulo q and x^512 + 1 (000, 2.2), the number theoretic transform (2.7), rounding,
// and uniform polynomials (2.4.3). Residues and tables stay inside.
#![tactic(auto)]

pub mod poly;
mod powers;
mod prime;
mod residue;
pub mod rns;
pub mod uniform;
