//! Tests of threads that post, publish and route at once, over public names alone. There is nothing here to call.
#![tactic(auto)]

#[cfg(test)]
mod cluster;
#[cfg(test)]
mod cluster_desk;
#[cfg(test)]
mod cluster_inbox;
#[cfg(test)]
mod race;
