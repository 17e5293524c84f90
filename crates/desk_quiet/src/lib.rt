// What holds when things go quiet is a statement of definitions: this crate has no code.

#![tactic(auto)]
