// Worked samples of the texts, the papers and the transducers.
ghost use Rattle.std.specs.Prelude.{◌≡◌};
ghost use Rattle.samples.specs.Samples.{Samples};

const SAMPLES: u32 = 12;

// The samples hold; it answers how many there are.
pub fn samples_stand() -> u32
    ensures hold { Samples }
    ensures count { result ≡ 12 }
{
    SAMPLES
}
