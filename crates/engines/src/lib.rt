// Engines of gates: machines that compute on wires and count the gates that they spend. `engine` says what every engine
// promises; `word` computes on the words themselves, and `share` on words that are split into two shares.
#![tactic(auto)]

pub mod engine;
pub mod share;
pub mod word;
