// Theory only: written rules, their texts, their truth and their matrices.

#![tactic(auto)]
