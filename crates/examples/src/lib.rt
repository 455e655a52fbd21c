// Worked examples: computed from the definitions, as one theorem, and run as tests, with what each call answers and the whole memory afterwards.
#![tactic(auto)]

#[cfg(test)]
mod agreeing;
#[cfg(test)]
mod blocks;
#[cfg(test)]
mod granting;
#[cfg(test)]
mod lanes;
#[cfg(test)]
mod lent;
#[cfg(test)]
mod lists;
#[cfg(test)]
mod matrices;
#[cfg(test)]
mod opening;
#[cfg(test)]
mod published;
#[cfg(test)]
mod random;
#[cfg(test)]
mod reading;
#[cfg(test)]
mod refusing;
#[cfg(test)]
mod sample;
#[cfg(test)]
mod sharing;
#[cfg(test)]
mod site;
#[cfg(test)]
mod stepping;
pub mod worked;
