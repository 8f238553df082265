// The elimination: a field matrix in a basis in which it is the block diagonal of companion blocks.
#![tactic(auto)]

pub mod elimination; // block after block
