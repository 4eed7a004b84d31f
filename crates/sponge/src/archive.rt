//! The archive sponge: 32 bytes, hashed by BLAKE2s.
ghost use Rattle.std.specs.Prelude.{◌≡◌};
ghost use Rattle.sponge.specs.Archive.{zeros, archive};
ghost use Rattle.sponge.specs.Binding.{ArchiveBinds};

use crate::Sponge;
use blake2s::hash_pieces;

/// A sponge that holds 32 bytes.
#[derive(Clone, Copy, Debug, PartialEq, Eq)]
pub struct ArchiveSponge {
    h: [u8; 32],
}

impl ArchiveSponge {
    /// The bytes that it holds.
    pub fn state(&self) -> [u8; 32]
        ensures { result ≡ self.now.h }
    {
        self.h
    }
}

impl Sponge for ArchiveSponge {
    type Seed = ();

    ghost held = { λ a. a.h };

    ghost fresh = { λ _. zeros };

    ghost rules = { archive };

    fn make(seed: ()) -> ArchiveSponge {
        ArchiveSponge { h: [0; 32] }
    }

    fn observe(&mut self, bytes: &[u8]) {
        let h = self.h;
        self.h = hash_pieces(&[&[0], &h, bytes]);
    }

    fn draw(&mut self) -> u32 {
        let h = self.h;
        self.h = hash_pieces(&[&[1], &h]);
        let [a, b, c, d, ..] = self.h;
        u32::from_le_bytes([a, b, c, d])
    }
}

/// As many calls on two new sponges lead to one state only if they are the same calls, or the hash
/// collides on lists that they hashed.
pub fn archive_binds_stands()
    ensures { ArchiveBinds }
{}
