// The worked examples as one theorem, computed from the definitions that the contracts cite.
ghost use Rattle.examples.specs.Worked.{WorkedExamples};

// The S-box, the sample set, a set that collapses, gates and batches, shares, and the Grain generator.
pub fn examples_stand()
    ensures { WorkedExamples }
{}
