// F_p in code, for the primes p from 2 to 251.
#![tactic(auto)]

pub mod modulus; // remainders by a multiplication
pub mod residue; // the prime test, x + k y and the reciprocal
pub mod table; // the reciprocals modulo 251
