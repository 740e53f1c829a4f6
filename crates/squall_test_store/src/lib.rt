//! Tests of stores and of rows in memory, over public names alone, and a client of their theorem.
#![tactic(auto)]

pub mod clients;
#[cfg(test)]
mod example;
#[cfg(test)]
mod memory;
#[cfg(test)]
mod several;
#[cfg(test)]
mod stores;
#[cfg(test)]
mod world_rows;
