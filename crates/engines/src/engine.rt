// What every engine of gates promises.
ghost use Rattle.std.specs.Prelude.{◌≡◌, ℕ, ◌+◌, ◌-◌, ◌%◌, ◌^◌, ◌<◌, ◌≤◌, MatchResult, bit_and, bit_xor};
ghost use Rattle.engines.specs.declared.engine.Account.{Account};
ghost use Rattle.engines.specs.Accounts.{Dry, Full, Granted, Sound, Spent, left as left_of, new_account};

use bits::refusal::{Fault, Layer, Refusal};

// What an engine keeps count of. Of its capacity some gates are granted, and of these some are done.
#[derive(Clone, Copy, PartialEq, Eq, Debug)]
pub struct Account {
    pub capacity: u32,
    pub granted: u32,
    pub done: u32,
}

impl Account {
    // The account of a new engine: nothing is granted, nothing done.
    pub fn new(capacity: u32) -> Account
        ensures { result ≡ new_account capacity }
    {
        Account {
            capacity,
            granted: 0,
            done: 0,
        }
    }

    // The gates that are left: granted and not done.
    pub fn left(self) -> u32
        ensures { result ≡ left_of self }
    {
        self.granted.saturating_sub(self.done)
    }
}

// What an engine has in its keeping: an account that grants no more than the capacity and counts no gate that was not granted.
#[derive(Clone, Copy)]
pub(crate) struct Ledger {
    pub account: Account,
    ghost kept: { Sound account },
}

impl Ledger {
    // The ledger of a new engine.
    pub fn new(capacity: u32) -> Ledger
        ensures { result.account ≡ new_account capacity }
    {
        Ledger {
            account: Account::new(capacity),
        }
    }

    // The ledger after one more gate; refused if no granted gate is left.
    pub fn spend(self) -> Result<Ledger, Fault>
        ensures { MatchResult result (λ l. Spent self.account 1 l.account) (Dry self.account) }
    {
        if self.account.left() == 0 {
            return Err(Fault::at(Refusal::OutOfGates, Layer::Engine, 0));
        }
        Ok(Ledger {
            account: Account {
                done: self.account.done + 1,
                ..self.account
            },
        })
    }

    // The ledger after a grant of g gates; refused if that passes the capacity.
    pub fn grant(self, g: u32) -> Result<Ledger, Fault>
        ensures { MatchResult result (λ l. Granted self.account g l.account) (Full self.account g) }
    {
        let free = self.account.capacity - self.account.granted;
        if g > free {
            return Err(Fault::at(Refusal::OverCapacity, Layer::Engine, free as usize));
        }
        Ok(Ledger {
            account: Account {
                granted: self.account.granted + g,
                ..self.account
            },
        })
    }
}

// An engine computes on wires. A wire carries a bit in each of the engine's lanes; `means` is the word of these bits, lane j
// at bit j. Sums are free; each product costs one gate of those granted.
pub trait Engine {
    type Wire: Copy;

    // How many lanes a wire has, from 1 to 64.
    const LANES: u32;

    // The same number, for clauses.
    ghost lanes: { ℕ };

    ghost few: { (1 ≤ lanes) × (lanes ≤ 64) };

    ghost means: { Self.Wire → ℕ };

    ghost within: { (w : Self.Wire) → means w < 2 ^ lanes };

    ghost acct: { Self → Account };

    ghost sound: { (e : Self) → Sound (acct e) };

    fn lanes_of() -> u32
        ensures { result ≡ lanes };

    // A wire that carries the word's low bits, whatever the mask is; an engine may hide the word with the mask.
    fn enter(&self, word: u64, mask: u64) -> Self::Wire
        ensures { means result ≡ word % 2 ^ lanes };

    // The word that a wire carries.
    fn read(&self, wire: Self::Wire) -> u64
        ensures { result ≡ means wire };

    // The sum of two wires, lane by lane.
    fn add(&self, x: Self::Wire, y: Self::Wire) -> Self::Wire
        ensures { means result ≡ bit_xor (means x) (means y) };

    // The product of two wires, lane by lane, for one granted gate; refused exactly when none is left.
    fn gate(&mut self, x: Self::Wire, y: Self::Wire) -> Result<Self::Wire, Fault>
        ensures { MatchResult result (λ w. (means w ≡ bit_and (means x) (means y)) × Spent (acct self.old) 1 (acct self.new)) (λ f. (self.new ≡ self.old) × Dry (acct self.old) f) };

    // Grants g more gates; refused exactly when that passes the capacity.
    fn grant(&mut self, g: u32) -> Result<(), Fault>
        ensures { MatchResult result (λ _. Granted (acct self.old) g (acct self.new)) (λ f. (self.new ≡ self.old) × Full (acct self.old) g f) };

    // The counts as they stand.
    fn account(&self) -> Account
        ensures { result ≡ acct self.now };
}
