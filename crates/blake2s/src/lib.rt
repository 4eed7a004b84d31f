//! BLAKE2s with no key and a 32-byte digest (RFC 7693).
#![tactic(auto)]

mod compress;
mod state;
mod stream;
#[cfg(test)]
mod tests;

ghost use Rattle.std.specs.Prelude.{◌≡◌, ◌++◌, map};
ghost use Rattle.std.specs.List.{concat};
ghost use Rattle.blake2s.specs.Blake2s.{hash};
ghost use Rattle.blake2s.specs.Laws.{CollisionsAreOfCompression, HashesAreThirtyTwoBytes};

pub use compress::working_words;
pub use state::Hasher;

/// The hash of a message.
pub fn hash(message: &[u8]) -> [u8; 32]
    ensures { result ≡ hash message.now }
{
    hash_pieces(&[message])
}

/// The hash of the pieces, one after another.
pub fn hash_pieces(pieces: &[&[u8]]) -> [u8; 32]
    ensures { result ≡ hash (concat (map (λ piece. piece.now) pieces.now)) }
{
    let mut hasher = Hasher::new();
    for piece in pieces {
        hasher.update(piece);
    }
    hasher.finish()
}

/// The hash of two pieces, one after the other.
pub fn hash_two(left: &[u8], right: &[u8]) -> [u8; 32]
    ensures { result ≡ hash (left.now ++ right.now) }
{
    hash_pieces(&[left, right])
}

/// The hash of three pieces, one after another.
pub fn hash_three(first: &[u8], second: &[u8], third: &[u8]) -> [u8; 32]
    ensures { result ≡ hash (first.now ++ (second.now ++ third.now)) }
{
    hash_pieces(&[first, second, third])
}

/// A collision of the hash is a collision of its compression function.
pub fn collisions_stand()
    ensures { CollisionsAreOfCompression }
{}

/// Every hash is 32 bytes.
pub fn lengths_stand()
    ensures { HashesAreThirtyTwoBytes }
{}
