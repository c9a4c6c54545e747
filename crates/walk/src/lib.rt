// A walk over any list of rounds, at once or by a session: this crate has no function.
#![tactic(auto)]
