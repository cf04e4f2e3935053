// Theory only: the place of a pair of columns, and the product verdict as the question of the product rows.

#![tactic(auto)]
