//! Tests of logs on disk and of stores with a log, over public names alone.
#![tactic(auto)]

#[cfg(test)]
mod example;
