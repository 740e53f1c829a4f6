//! Tests that cross crates.

mod headline;
mod messages;
mod routes;
