// The theorems stand in proofs/; this crate has no code of its own.
#![tactic(auto)]
