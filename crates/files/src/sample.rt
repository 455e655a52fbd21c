// The sample file as a theorem.
ghost use Rattle.files.specs.Samples.{SampleStands};

// The sample set is lawful; its layout is the 32 bytes of the sample file, which pass every check and are read back as that set.
pub fn sample_stands()
    ensures { SampleStands }
{}
