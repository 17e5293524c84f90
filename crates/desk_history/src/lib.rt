// Demand 3 is a statement of definitions: this crate has no code.

#![tactic(auto)]
