//! Tests of audits of files, over public names alone. There is nothing here to call.
#![tactic(auto)]

#[cfg(test)]
mod audits;
#[cfg(test)]
mod check;
#[cfg(test)]
mod logs;
