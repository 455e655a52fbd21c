// An instance: a prepared set that passed the checks of opening, or nothing yet.
ghost use Rattle.std.specs.Prelude.{◌≡◌, true};
ghost use Rattle.cipher.specs.Sound.{passes};
ghost use Rattle.cipher.specs.Held.{held_in};

use crate::opened::Opened;

// The set is lent, not copied.
#[derive(Drop)]
pub struct Instance<'a> {
    pub(crate) opened: Option<Opened<'a>>,
    ghost passed: { passes (held_in opened) ≡ true },
}
