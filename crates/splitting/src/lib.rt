// One block of the elimination: the window becomes a companion block whose polynomial kills it, and the rest.
#![tactic(auto)]

pub mod passes; // the pass that makes a block
pub mod blocks; // the block whose polynomial kills the window
