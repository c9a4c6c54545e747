// The worked cases of the specification, proved against its definitions: this crate has no function.
#![tactic(auto)]
