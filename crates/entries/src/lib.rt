// The entries of D, P, Q and their inverses, read off F, T and the inverse of T.
#![tactic(auto)]

pub mod closed; // D, P, Q and their inverses, entry by entry
