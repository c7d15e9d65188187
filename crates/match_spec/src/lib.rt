// Matching: patterns, consistent extensions, the walk. Definitions and laws are in specs/; there is no code here.
#![tactic(auto)]
