// Changes of basis of a field matrix: B, T and the inverse of T, with A T = T B.
#![tactic(auto)]

pub mod steps; // rows and columns, and one basis vector replaced
