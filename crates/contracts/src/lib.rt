// Claims only: two answers that one contract allows are equal.
#![tactic(auto)]
