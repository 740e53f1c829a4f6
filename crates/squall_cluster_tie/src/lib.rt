//! A desk beside a world: what the owner and the seats of a cluster do is what happens at one router
//! of a world. There is nothing here to call but laws.
#![tactic(auto)]

mod desk;

pub use desk::a_desk_is_a_router;
