// No code: general laws that the proofs of the other crates cite.
#![tactic(auto)]
