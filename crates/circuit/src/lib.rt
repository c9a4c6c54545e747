// Circuits, from their word lists: this crate has no function.
#![tactic(auto)]
