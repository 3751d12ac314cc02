//! Definitions and laws on lists, which every crate above cites. It has no code.

#![tactic(auto)]
