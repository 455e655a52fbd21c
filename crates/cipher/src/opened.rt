// A prepared set that passed the checks of opening.
ghost use Rattle.std.specs.Prelude.{◌≡◌, true, is_ok};
ghost use Rattle.cipher.specs.Instances.{opening};

use crate::prepared::Prepared;

// Having passed, every layer has its true inverse in the words.
#[derive(Clone, Copy)]
pub struct Opened<'a> {
    pub set: Prepared<'a>,
    ghost passed: { is_ok (opening set.params set.words.now) ≡ true },
}
