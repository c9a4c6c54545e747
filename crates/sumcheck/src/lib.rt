// The summand of a layer, its sums over {0, 1} and the messages about them: this crate has no function.
#![tactic(auto)]
