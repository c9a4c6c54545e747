// The multilinear extension and its laws: this crate has no function.
#![tactic(auto)]
