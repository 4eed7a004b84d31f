//! BLAKE2s for programs in C or Rust that link this library.
#![tactic(auto)]

ghost use Rattle.std.specs.Prelude.{◌≡◌};
ghost use Rattle.blake2s.specs.Blake2s.{hash};

/// Writes the hash of the message into the digest.
#[unsafe(no_mangle)]
pub extern "C" fn konwydrel_blake2s(message: &[u8], digest: &mut [u8; 32])
    ensures { digest.new ≡ hash message.now }
{
    *digest = blake2s::hash(message);
}
