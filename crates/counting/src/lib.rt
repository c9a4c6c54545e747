// Coin lists, how many pass a test, and the law of soundness: this crate has no function.
#![tactic(auto)]
