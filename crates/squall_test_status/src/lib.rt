//! Tests of how far reconfigurations have come, over public names alone. There is nothing here to call.
#![tactic(auto)]

#[cfg(test)]
mod json;
#[cfg(test)]
mod picture;
#[cfg(test)]
mod status;
#[cfg(test)]
mod tally;
