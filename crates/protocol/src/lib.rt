// The protocol: what every operation on a circuit answers, and the theorems about it. This crate has no function.
#![tactic(auto)]
