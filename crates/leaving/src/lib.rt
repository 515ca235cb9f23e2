// Sources with bays left out.
#![tactic(auto)]

pub mod without;
