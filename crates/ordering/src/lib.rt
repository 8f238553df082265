// The basis in another order: rotated, or with two vectors exchanged.
#![tactic(auto)]

pub mod turning; // the basis in another order
pub mod exchange; // two basis vectors exchanged
