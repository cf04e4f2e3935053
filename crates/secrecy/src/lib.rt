// Theory only: what an opening vector and a witness show of dealings.

#![tactic(auto)]
