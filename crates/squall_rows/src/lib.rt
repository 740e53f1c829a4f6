//! Rows that move with their keys: all partitions together are one map.
//!
//! A partition keeps a row under each key, and runs a command on a row only if it holds the key.
//! A chunk brings the rows of its keys along. [`laws::one_map`] says of every run, for all rows
//! and commands: all partitions together are one map. Each command that was answered read and
//! changed that map, in the order in which commands were answered, and nothing was lost by a move.
//! So it is through any number of reconfigurations, with reports and chunks lost, repeated and
//! late, and with partitions that restart from their logs. Whoever sees the answers alone can't
//! distinguish the partitions from one map on one machine.
//!
//! The other laws say that rows forbid no step ([`laws::rows_follow`]), and which rows of a chunk a
//! host puts in place, and when ([`laws::new_is_held_nowhere`], [`laws::chunks_load_whole`]).
//! `docs/ROWS.md` has the theorem with its definitions.
#![tactic(auto)]

pub mod laws;

pub use laws::one_map;
