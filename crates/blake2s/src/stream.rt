//! Hashing piece by piece.

ghost use Rattle.std.specs.Prelude.{◌≡◌, ℕ, ◌+◌, ◌-◌, ◌<◌, ◌≤◌, min, List, [], ◌++◌, length, take};
ghost use Rattle.blake2s.specs.Blake2s.{words, digest, hash};
ghost use Rattle.blake2s.specs.Absorbed.{Cut, Ready, Absorbed, Pressed, Taken};

use crate::compress::{IV, compress};
use crate::state::Hasher;
use std::array;

// The sixteen words of a block.
fn to_words(block: &[u8; 64]) -> [u32; 16]
    ensures { result ≡ words block.now }
{
    let (groups, _) = block.as_chunks::<4>();
    array::from_fn(|i| u32::from_le_bytes(groups[i]))
}

// The bytes of a state.
fn to_bytes(h: [u32; 8]) -> [u8; 32]
    ensures { result ≡ digest h }
{
    array::from_fn(|k| h[k / 4].to_le_bytes()[k % 4])
}

impl Hasher {
    /// A hasher that has taken in nothing.
    pub fn new() -> Hasher
        ensures { Absorbed result [] }
    {
        let mut h = IV;
        // A digest of 32 bytes, no key and no tree.
        h[0] ^= 0x0101_0020;
        Hasher {
            h,
            block: [0; 64],
            filled: 0,
            count: 0,
        }
    }

    // Compresses a block that is not the last one, and empties the buffer.
    fn press(&mut self, block: &[u8; 64])
        ensures { Pressed self.old self.new block.now }
    {
        let t = self.count.wrapping_add(64);
        compress(&mut self.h, to_words(block), t, false);
        self.count = t;
        self.block = [0; 64];
        self.filled = 0;
    }

    // Compresses the buffer where it is full; what is taken in next shows that it was not the last block.
    fn make_room(&mut self)
        ensures room { self.new.filled < 64 }
        ensures keeps { (xs : List ℕ) (n : ℕ) → Cut self.old xs n → Ready self.new xs }
    {
        if self.filled == 64 {
            let block = self.block;
            self.press(&block);
        }
    }

    // Takes as many of the bytes as there is room for, and says how many.
    fn fill(&mut self, rest: &[u8]) -> usize
        ensures taken { result ≡ min (length rest.now) (64 - self.old.filled) }
        ensures filled { self.new.filled ≡ self.old.filled + result }
        ensures waits { take self.new.filled self.new.block ≡ take self.old.filled self.old.block ++ take result rest.now }
        ensures state { self.new.h ≡ self.old.h }
        ensures counted { self.new.count ≡ self.old.count }
    {
        let from = self.filled;
        let n = rest.len().min(64 - from);
        self.block[from..from + n].copy_from_slice(&rest[..n]);
        self.filled = from + n;
        n
    }

    // Takes some of the bytes, and says how many: a whole block at once where the buffer is empty and more come after
    // it, and else as many as there is room for.
    fn take_some(&mut self, rest: &[u8]) -> usize
        requires { (self.old.filled < 64) × (0 < length rest.now) }
        ensures { Taken self.old self.new rest.now result }
    {
        match rest.split_first_chunk::<64>() {
            Some((block, more)) if self.filled == 0 && !more.is_empty() => {
                self.press(block);
                64
            }
            _ => self.fill(rest),
        }
    }

    /// Takes in a piece of the message.
    pub fn update(&mut self, piece: &[u8])
        ensures { (xs : List ℕ) → Absorbed self.old xs → Absorbed self.new (xs ++ piece.now) }
    {
        let mut rest = piece;
        while !rest.is_empty() {
            self.make_room();
            let taken = self.take_some(rest);
            rest = &rest[taken..];
        }
    }

    /// The hash of the pieces taken in, one after another.
    pub fn finish(self) -> [u8; 32]
        ensures { (xs : List ℕ) → Absorbed self xs → result ≡ hash xs }
    {
        let Hasher {
            mut h,
            block,
            filled,
            count,
        } = self;
        let t = count.wrapping_add(filled as u64);
        compress(&mut h, to_words(&block), t, true);
        to_bytes(h)
    }
}
