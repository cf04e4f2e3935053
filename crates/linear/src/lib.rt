// Theory only: combinations, the kept rule and the one question, over any field and over plain numbers modulo p.

#![tactic(auto)]
