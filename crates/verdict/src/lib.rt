// The check of a certificate: the rules in order, and the verdict.
#![tactic(auto)]

pub mod check;
