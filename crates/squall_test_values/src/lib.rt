//! Tests of keys, the keys of rows, spans, lists in blocks and values with a join, over public names alone. There is nothing here to call.
#![tactic(auto)]

#[cfg(test)]
mod blocks;
#[cfg(test)]
mod check;
#[cfg(test)]
mod join;
#[cfg(test)]
mod key;
#[cfg(test)]
mod keymap;
#[cfg(test)]
mod span;
