// The sheet's specification: definitions and what follows from them, in specs/. No code.
#![tactic(auto)]
