// Calls one after another: definitions and laws, and no code.
#![tactic(auto)]
