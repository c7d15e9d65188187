// View fields: nodes, meaning, the calls that build fields. Definitions and laws are in specs/; there is no code here.
#![tactic(auto)]
