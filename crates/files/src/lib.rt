#![tactic(auto)]

mod layers;
pub mod reader;
pub mod reading;
pub mod report;
mod rows;
pub mod sample;
