//! Tests of frames and of what boards send each other, over public names alone. There is nothing here to call.
#![tactic(auto)]

#[cfg(test)]
mod check;
#[cfg(test)]
mod delta;
#[cfg(test)]
mod wire;
