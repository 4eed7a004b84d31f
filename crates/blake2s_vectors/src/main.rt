//! Runs BLAKE2s on a stored list, a line of the input for each case, and prints what comes out.
//!
//! `hash HEX` prints the hash of a message, and `joined HEX,HEX,HEX` that of three pieces; `-` is no bytes.
//! `filled LENGTH PIECE` prints the hash of LENGTH bytes, byte i being (7 i + 3) modulo 251, taken in PIECE at a time.
//! `rounds WORDS` prints the working words of a compression before its first round and after each round; the words,
//! in hexadecimal with commas between them, are eight of the state, sixteen of the block, the count and the last flag.
#![tactic(auto)]

ghost use Rattle.std.specs.Prelude.{◌≡◌, ℕ, ◌+◌, ◌^◌, ◌<◌, ◌≤◌, List, ◌++◌, length};
ghost use Rattle.blake2s.specs.Absorbed.{Absorbed};
ghost use Rattle.blake2s.specs.Blake2s.{hash};
ghost use Rattle.blake2s_vectors.specs.Rule.{bytes_from};

use anyhow::bail;
use blake2s::{Hasher, hash, hash_pieces, working_words};
use std::alloc::{AllocError, Global};
use std::fmt;
use std::io::{BufRead, BufReader};

// A digest, printed in hexadecimal.
#[derive(Debug, Drop)]
struct Digest([u8; 32]);

impl fmt::Display for Digest {
    fn fmt<W: fmt::Write>(&self, f: &mut fmt::Formatter<W>) -> fmt::Result {
        for b in &self.0 {
            write!(f, "{b:02x}")?;
        }
        Ok(())
    }
}

// The value of a hexadecimal digit.
//
// Kept: by the byte: `chars` with `to_digit`, and a list of the digits behind it, took 1.10 s for a line of 130 MB, and this takes 0.86 s.
fn digit(b: u8) -> Option<u8> {
    match b {
        b'0'..=b'9' => Some(b - b'0'),
        b'a'..=b'f' => Some(b - b'a' + 10),
        b'A'..=b'F' => Some(b - b'A' + 10),
        _ => None,
    }
}

// The bytes that pairs of hexadecimal digits spell. Other characters are passed over, and so is a digit that is left.
fn bytes(heap: Global, text: &str) -> Result<Vec<u8>, AllocError> {
    let mut bytes = Vec::new(heap);
    let mut before = None;
    for digit in text.bytes().filter_map(digit) {
        match before {
            None => before = Some(digit),
            Some(high) => {
                bytes.push((high << 4) | digit)?;
                before = None;
            }
        }
    }
    Ok(bytes)
}

// The word that hexadecimal digits spell, modulo 2 ^ 32.
fn word(text: &str) -> u32 {
    text.bytes()
        .filter_map(digit)
        .fold(0, |word, digit| (word << 4) | u32::from(digit))
}

// Fills the buffer with the bytes of the message from place `done` on.
fn fill(buffer: &mut [u8], done: usize)
    requires { done + length buffer.old < 2 ^ 64 }
    ensures { buffer.new ≡ bytes_from done (length buffer.old) }
{
    for (i, byte) in buffer.iter_mut().enumerate() {
        *byte = (((done + i) % 251 * 7 + 3) % 251) as u8;
    }
}

// Takes in n bytes of the message from place `done` on.
fn feed(hasher: &mut Hasher, done: usize, n: usize)
    requires { (done + n < 2 ^ 64) × (n ≤ 4096) }
    ensures { (xs : List ℕ) → Absorbed hasher.old xs → Absorbed hasher.new (xs ++ bytes_from done n) }
{
    let mut store = [0; 4096];
    let buffer = &mut store[..n];
    fill(buffer, done);
    hasher.update(buffer);
}

// The hash of a message of that length, taken in some bytes at a time, at most 4096.
fn filled(long: usize, piece: usize) -> [u8; 32]
    ensures { result ≡ hash (bytes_from 0 long) }
{
    let most = piece.clamp(1, 4096);
    let mut hasher = Hasher::new();
    for done in (0..long).step_by(most) {
        feed(&mut hasher, done, most.min(long - done));
    }
    hasher.finish()
}

// The first N words of a list, with zeros past its end.
fn padded<const N: usize>(words: &[u32]) -> [u32; N] {
    let mut padded = [0; N];
    for (place, word) in padded.iter_mut().zip(words) {
        *place = *word;
    }
    padded
}

// The working words of a compression before its first round and after each round.
fn rounds(rt: &HostRuntime, words: &[u32]) -> anyhow::Result<()> {
    let h = padded::<8>(words);
    let m = padded::<16>(words.get(8..).unwrap_or(&[]));
    let [t, last] = padded::<2>(words.get(24..).unwrap_or(&[]));
    for n in 0..11 {
        print!(rt; "{n}:")?;
        for w in working_words(h, m, u64::from(t), last == 1, n) {
            print!(rt; " {w:08X}")?;
        }
        println!(rt; "")?;
    }
    Ok(())
}

fn trace(rt: &HostRuntime, text: &str) -> anyhow::Result<()> {
    let words: Vec<u32> = text.split(',').map(word).collect(rt.alloc())?;
    rounds(rt, &words)
}

// The hash of the first three pieces; those that are missing have no bytes.
fn joined(heap: Global, text: &str) -> Result<Digest, AllocError> {
    let mut pieces = text.split(',');
    let first = bytes(heap, pieces.next().unwrap_or(""))?;
    let second = bytes(heap, pieces.next().unwrap_or(""))?;
    let third = bytes(heap, pieces.next().unwrap_or(""))?;
    Ok(Digest(hash_pieces(&[&first, &second, &third])))
}

// Kept: a match on the kind of a line, one arm each, says what is printed; a closure for each kind would say no more.
fn answer(rt: &HostRuntime, line: &str) -> anyhow::Result<()> {
    let mut parts = line.split(' ');
    let case = parts.next().unwrap_or("");
    let text = parts.next().unwrap_or("");
    match case {
        "hash" => println!(rt; "{}", Digest(hash(&bytes(rt.alloc(), text)?)))?,
        "joined" => println!(rt; "{}", joined(rt.alloc(), text)?)?,
        "filled" => {
            let (long, piece) = (text.parse()?, parts.next().unwrap_or("").parse()?);
            println!(rt; "{}", Digest(filled(long, piece)))?;
        }
        "rounds" => trace(rt, text)?,
        _ => bail!("a line that is no case"),
    }
    Ok(())
}

fn run(rt: &HostRuntime) -> anyhow::Result<()> {
    for line in BufReader::new(rt.alloc(), rt.stdin())?.lines(rt.alloc()) {
        answer(rt, line?.as_str())?;
    }
    Ok(())
}

fn main(rt: HostRuntime) -> anyhow::Result<()> {
    run(&rt)
}
