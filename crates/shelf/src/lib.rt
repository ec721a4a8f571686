// No code: which events a shortened trace keeps, and what is so of it.
#![tactic(auto)]
