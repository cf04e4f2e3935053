// Theory only: laws of lists of numbers that loops over lent lists need.

#![tactic(auto)]
