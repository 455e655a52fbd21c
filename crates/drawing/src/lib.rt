// Drawing sets from a source of bits.
#![tactic(auto)]

pub mod drawer;
pub mod grain;
mod keep;
mod matrices;
mod parts;
pub mod source;
pub mod tape;
