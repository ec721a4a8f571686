// No code: the rules of change, what accepting means, and the theory; the judge stands above.
#![tactic(auto)]
