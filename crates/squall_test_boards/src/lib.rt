//! Tests of boards, over public names alone. There is nothing here to call.
#![tactic(auto)]

#[cfg(test)]
mod board;
#[cfg(test)]
mod check;
