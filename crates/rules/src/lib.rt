// The nine rules in code, on the lent bytes: each fails with its number.
#![tactic(auto)]

pub mod diagonal; // rules 1 to 3
pub mod field; // rules 8 and 9
pub mod frobenius; // rule 7
pub mod smith; // rule 6
