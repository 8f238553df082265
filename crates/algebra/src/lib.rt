// Mathematics only: see specs/.
#![tactic(auto)]
