// A row of the published parameter sets. It stands apart because a type and a function of one module may not differ in case only.
use crate::params::Params;

// Parameters, and the AND gates of one encryption.
#[derive(Clone, Copy, PartialEq, Eq, Debug)]
pub struct Published {
    pub params: Params,
    pub gates: u64,
}
