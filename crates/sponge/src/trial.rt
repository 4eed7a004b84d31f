//! The trial sponge: one 64-bit number.
ghost use Rattle.std.specs.Prelude.{◌≡◌, ◌/◌, ◌^◌};
ghost use Rattle.sponge.specs.Trial.{stir, alone, trial};

use crate::Sponge;

/// A sponge that holds one number.
#[derive(Clone, Copy, Debug, PartialEq, Eq)]
pub struct TrialSponge {
    s: u64,
}

// The number after v is taken in.
fn stirred(s: u64, v: u64) -> u64
    ensures { result ≡ stir s v }
{
    (s ^ v).wrapping_mul(6364136223846793005).wrapping_add(1)
}

impl TrialSponge {
    /// The number that it holds.
    pub fn state(&self) -> u64
        ensures { result ≡ self.now.s }
    {
        self.s
    }
}

impl Sponge for TrialSponge {
    type Seed = ();

    ghost held = { λ t. alone t.s };

    ghost fresh = { λ _. alone 0 };

    ghost rules = { trial };

    fn make(seed: ()) -> TrialSponge {
        TrialSponge { s: 0 }
    }

    fn observe(&mut self, bytes: &[u8]) {
        for b in bytes {
            self.s = stirred(self.s, u64::from(*b));
        }
    }

    fn draw(&mut self) -> u32 {
        self.s = stirred(self.s, 256);
        (self.s >> 32) as u32
    }
}
