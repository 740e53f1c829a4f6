//! Tests of plans, courses and reports, over public names alone. There is nothing here to call.
#![tactic(auto)]

#[cfg(test)]
mod check;
#[cfg(test)]
mod course;
#[cfg(test)]
mod edit;
#[cfg(test)]
mod plan;
#[cfg(test)]
mod report;
#[cfg(test)]
mod text;
