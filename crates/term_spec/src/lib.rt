// Terms: records of words, values, equality. Definitions and laws are in specs/; there is no code here.
#![tactic(auto)]
