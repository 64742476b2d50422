//! What the indexes of checkpoints say, of the bytes that stand in extents.
//!
//! This crate has no code, and touches nothing. The law of chains (`laws_tables`) takes what an index says for given (`layer_at`), and asks of a checkpoint that its index covers what the range held. Here that layer is read of the
//! texts of extents (`IndexLayers`). It is proved that an index which was written of some entries says them (`WrittenIndexes`),
//! that a plain checkpoint covers the fixed layer and a combined one all that it combines (`Checkpoints`), also where pages are merged one
//! after the other, as they are read or held (`CombinedLayers`), and that a page which
//! was observed has the bytes of its place (`ObservedPages`). What loaded tables and Gets show of these layers is in `ShownTables`:
//! the rows of a table over pages that were observed (`ShownRows`), and look-ups over pages that are held (`HeldPages`). While a
//! checkpoint writes its pages those that stand are the first of its entries (`WrittenPages`), and once its index stands too its
//! record may be written (`CheckpointRecords`). What the rules of a checkpoint make of this is in `laws_server_runs`.
#![tactic(auto)]
