// Theory only: commutative rings, fields and finite sums over them (specs/), with their laws (proofs/).

#![tactic(auto)]
