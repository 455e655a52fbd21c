// Opening a prepared set: its checks, in their order, and the instance that holds it.
ghost use Rattle.std.specs.Prelude.{◌≡◌, Some, None, MatchOption};
ghost use Rattle.cipher.specs.Instances.{opening};
ghost use Rattle.cipher.specs.Sound.{Sound, held_after, params_in};
ghost use Rattle.cipher.specs.Holds.{held_by};

use crate::instance::Instance;
use crate::inverse::first_wrong;
use crate::opened::Opened;
use crate::params::Params;
use crate::prepared::Prepared;
use crate::stray::first_in_set;
use bits::refusal::{Fault, Layer, Refusal};

// Limits, room, stray bits, inverses: a later check may rely on those before it. Words past the set's are not looked at.
fn check_set(params: Params, words: &[u64]) -> Result<(), Fault>
    ensures { result ≡ opening params words.now }
{
    params.check()?;
    let wanted = params.prepared_words();
    if words.len() < wanted {
        return Err(Fault::at(Refusal::TooFewWords, Layer::Set, wanted));
    }
    let set = Prepared::new(params, words);
    if let Some(i) = first_in_set(set) {
        return Err(Fault::at(Refusal::StrayBit, Layer::Set, i));
    }
    if let Some(i) = first_wrong(set) {
        return Err(Fault::at(Refusal::NotInverse, Layer::Set, i));
    }
    Ok(())
}

impl<'a> Instance<'a> {
    // An instance that holds nothing.
    pub fn empty() -> Instance<'a>
        ensures { held_by result ≡ None }
    {
        Instance { opened: None }
    }

    // Takes in a prepared set. Refused, the instance holds what it held before.
    pub fn open(&mut self, params: Params, words: &'a [u64]) -> Result<(), Fault>
        ensures answer { result ≡ opening params words.now }
        ensures holds { held_by self.new ≡ held_after result (held_by self.old) params words.now }
    {
        check_set(params, words)?;
        let set = Prepared::new(params, words);
        let opened = Some(Opened { set });
        *self = Instance { opened };
        Ok(())
    }

    // The parameters of the set that is held. Of each set that an instance holds, every layer has the inverse that stands in its words.
    pub fn params(&self) -> Option<Params>
        ensures value { result ≡ params_in (held_by self.now) }
        ensures sound { Sound (held_by self.now) }
    {
        self.opened.map(|opened| opened.set.params)
    }

    // The set that is held.
    pub fn held(&self) -> Option<Opened<'a>>
        ensures value { MatchOption result (held_by self.now ≡ None) (λ o. held_by self.now ≡ Some (o.set.params, o.set.words.now)) }
        ensures sound { Sound (held_by self.now) }
    {
        self.opened // what is held
    }
}
