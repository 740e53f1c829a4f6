//! Reading from the beginning of bytes.

pub(crate) mod body;
mod cell;
mod field;
pub(crate) mod frame;
mod issued;
mod item;
mod list;
mod opening;
mod plan;
mod range;
mod row;
mod span;
