// The interface that every transducer keeps.
ghost use Rattle.std.specs.Prelude.{◌≡◌};
ghost use Rattle.transducers.specs.Meaning.{Meaning, Valid};

// Three counts, and what is in a slot. The questions change nothing, and none is refused.
pub trait Transducer {
    ghost meaning: { Self → Meaning };

    fn states(&self) -> u32
        ensures { result ≡ (meaning self.now).states };

    fn letters(&self) -> u32
        ensures { result ≡ (meaning self.now).letters };

    fn slots(&self) -> u32
        ensures { result ≡ (meaning self.now).slots };

    // The edge in slot i: from, to, south, north.
    fn slot(&self, i: u32) -> Option<(u32, u32, u32, u32)>
        ensures { result ≡ (meaning self.now).edge i };

    ghost valid: { (t : Self) → Valid (meaning t) };
}
