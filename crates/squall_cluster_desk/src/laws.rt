//! Laws: statements whose functions do nothing.

pub use crate::seat::{one_list, one_list_of_notice};
