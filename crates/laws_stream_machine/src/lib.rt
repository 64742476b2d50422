//! The nodes and the manager, whatever happens to them, as the lower layer of the machine of one stream.
//!
//! This crate has no code, and touches nothing. Its lemmas lead from the facts that hold of every run of the model
//! (`laws_streams`) to the steps of a stream as `model_partition` defines them, from which `laws_tables` proves that the loads
//! of the stream keep their order.
#![tactic(auto)]
