// Certificates in code: the ten records with their marks, and reading one by one.
#![tactic(auto)]

pub mod records; // marks, sizes and offsets
pub mod limits; // the order and the prime
pub mod reading; // record by record, to the first refusal
