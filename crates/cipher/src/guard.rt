// A guard over lent work memory.
ghost use Rattle.std.specs.Prelude.{◌≡◌, length, replicate};

// Work memory that is zeroed when the guard goes, on whichever way out: what a call computed there from key and block is gone.
pub(crate) struct Wipe<'a> {
    pub(crate) work: &'a mut [u64],
}

impl Drop for Wipe<'_> {
    fn drop(self)
        ensures { self.exit.0.now ≡ replicate (length self.entry.work.now) 0 }
    {
        self.work.fill(0);
        let Wipe { work: _ } = self;
    }
}
