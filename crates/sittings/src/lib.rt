// Lists of calls on engines: grants of gates, and batches that bring their own instance and memory. `entry` says what stands
// in a list; `run` makes the calls of one list; `two` runs two lists on two engines and reads a set file, under one law.
#![tactic(auto)]

pub mod entry;
pub mod run;
pub mod two;
