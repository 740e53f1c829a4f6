//! Tests of judges of logs, over public names alone. There is nothing here to call. What judges say of
//! logs of a whole move is in `cases/audit`, over the built program.
#![tactic(auto)]

#[cfg(test)]
mod check;
pub mod client;
#[cfg(test)]
mod entries;
#[cfg(test)]
mod example;
