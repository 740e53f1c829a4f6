//! Tests that cross crates: what a caller who has public names alone can do and prove. There is
//! nothing here to call.
#![tactic(auto)]

#[cfg(test)]
mod check;
#[cfg(test)]
mod tests;
