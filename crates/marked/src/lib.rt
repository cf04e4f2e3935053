// Theory only: document 01's marked examples A to L, one table and one theorem about the definitions that the contracts cite.

#![tactic(auto)]
