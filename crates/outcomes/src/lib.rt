// One outcome and no other: definitions and a law, and no code.
#![tactic(auto)]
