// The laws of inverses, as facts that this crate is refused without.
ghost use Rattle.bits.specs.Gf2.{CollapsesOrInverse, NotBoth, OneInverse, OneSideIsBoth};

// A square matrix collapses or has an inverse, and never both; an inverse on one side is one on the other; and there is at most one.
pub fn inverses_stand()
    ensures either { CollapsesOrInverse }
    ensures never { NotBoth }
    ensures sides { OneSideIsBoth }
    ensures one { OneInverse }
{}
