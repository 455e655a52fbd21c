#![tactic(auto)]

pub mod block;
pub mod direction;
mod guard;
pub mod instance;
mod inverse;
pub mod laws;
pub mod opened;
pub mod opening;
pub mod params;
pub mod parts;
pub mod places;
pub mod prepared;
pub mod published;
mod round;
pub mod row;
mod state;
pub mod stray;
