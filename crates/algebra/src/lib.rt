// Primes, rings and coefficient lists: this crate has no function.
#![tactic(auto)]
