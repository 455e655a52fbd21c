#![tactic(auto)]

pub mod elimination;
pub mod laws;
pub mod matrix;
pub mod refusal;
pub mod rows;
pub mod words;
