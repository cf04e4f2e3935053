// Theory only: what is written reads back, and what is read is what writing gives, from the contracts of writing and reading.

#![tactic(auto)]
