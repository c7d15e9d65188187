// Calls on lent words, and demand 3. Definitions and laws are in specs/; there is no code here.
#![tactic(auto)]
