// Theory only: elimination row by row in one table, its two backward solutions, and the rank.

#![tactic(auto)]
