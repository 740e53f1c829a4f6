//! Tests of routers, partitions, leaders, their laws and worlds, over public names alone. There is nothing here to call.
#![tactic(auto)]

mod audit;
#[cfg(test)]
mod check;
#[cfg(test)]
mod errand;
#[cfg(test)]
mod example;
#[cfg(test)]
mod leader;
#[cfg(test)]
mod nodes;
#[cfg(test)]
mod part;
#[cfg(test)]
mod protocol;
#[cfg(test)]
mod replay;
#[cfg(test)]
mod router;
// Its commands stand in a definition, which is read without the tests, too.
mod rows;
#[cfg(test)]
mod world;
