// No code: the fixed order of the steps, how many there are, what is promised of them, and the theory; the search of the next step stands above.
#![tactic(auto)]
