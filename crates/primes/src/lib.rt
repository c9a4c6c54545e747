// What a prime is, and that the listed moduli are primes: this crate has no function.
#![tactic(auto)]
