//! That no test of a restart is too weak: each record that a restart takes is one that its actor writes by a rule.
//!
//! This crate has no code, and touches nothing. Its lemmas prove of the rules of nodes, of the manager and of the map
//! (`model_streams`, `model_partition`) what `laws::records` states.
#![tactic(auto)]
