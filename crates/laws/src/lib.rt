//! Boards that are turned about or mirrored: what this means, and lemmas of the play on them. There is no code.
#![tactic(auto)]
