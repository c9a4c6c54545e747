// No code: what holds of any functions that keep the operations' contracts.
#![tactic(auto)]
