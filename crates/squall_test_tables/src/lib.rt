//! Tests of route tables, of what is written of courses into rooms, and of leaders behind handles, over public names
//! alone. There is nothing here to call.
#![tactic(auto)]

#[cfg(test)]
mod changes;
#[cfg(test)]
mod leaders;
#[cfg(test)]
mod rooms;
#[cfg(test)]
mod table;
