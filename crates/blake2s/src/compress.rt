//! The compression function of BLAKE2s (RFC 7693, section 3).

ghost use Rattle.std.specs.Prelude.{◌≡◌, ◌<◌, min};
ghost use Rattle.blake2s.specs.Compress.{added, turned, mixed, word, columns, diagonals, rounds, working, compressed};

/// The constants that a compression and the first state start from.
pub(crate) const IV: [u32; 8] = [
    0x6A09_E667,
    0xBB67_AE85,
    0x3C6E_F372,
    0xA54F_F53A,
    0x510E_527F,
    0x9B05_688C,
    0x1F83_D9AB,
    0x5BE0_CD19,
];

// The order of the message words in each of the ten rounds.
const SIGMA: [[u8; 16]; 10] = [
    [0, 1, 2, 3, 4, 5, 6, 7, 8, 9, 10, 11, 12, 13, 14, 15],
    [14, 10, 4, 8, 9, 15, 13, 6, 1, 12, 0, 2, 11, 7, 5, 3],
    [11, 8, 12, 0, 5, 2, 15, 13, 10, 14, 3, 6, 7, 1, 9, 4],
    [7, 9, 3, 1, 13, 12, 11, 14, 2, 6, 5, 10, 4, 0, 15, 8],
    [9, 0, 5, 7, 2, 4, 10, 15, 14, 1, 11, 12, 6, 8, 3, 13],
    [2, 12, 6, 10, 0, 11, 8, 3, 4, 13, 7, 5, 15, 14, 1, 9],
    [12, 5, 1, 15, 14, 13, 4, 10, 0, 7, 6, 3, 9, 2, 8, 11],
    [13, 11, 7, 14, 12, 1, 3, 9, 5, 0, 15, 4, 8, 6, 2, 10],
    [6, 15, 14, 9, 11, 3, 0, 8, 12, 2, 13, 7, 1, 4, 10, 5],
    [10, 2, 8, 4, 7, 6, 1, 5, 15, 11, 9, 14, 3, 12, 13, 0],
];

// Kept: the places and the words of a mixing are parameters, as the standard has them in G(v, a, b, c, d, x, y). With structs
// the first of a round would be `mix(v, Places { a: 0, b: 4, c: 8, d: 12 }, Pair { x: message(m, r, 0), y: message(m, r, 1) })`,
// and `add(v, a, b, x)` would be `add(v, p.a, p.b, w.x)`: each of the eight steps takes two of the places and at most one word. A
// type of numbers below 16 would be made at each of the 32 places that a round writes out.
// v[a] becomes v[a] + v[b] + x.
#[inline(always)]
#[tactic(auto, unfolding(crate::specs::Compress::added))]
fn add(v: &mut [u32; 16], a: usize, b: usize, x: u32)
    requires { (a < 16) × (b < 16) }
    ensures { v.new ≡ added v.old a b x }
{
    v[a] = v[a].wrapping_add(v[b]).wrapping_add(x);
}

// v[d] becomes v[d] xor v[a], turned right.
#[inline(always)]
#[tactic(auto, unfolding(crate::specs::Compress::turned))]
fn turn(v: &mut [u32; 16], d: usize, a: usize, by: u32)
    requires { (a < 16) × ((d < 16) × ((0 < by) × (by < 32))) }
    ensures { v.new ≡ turned v.old d a by }
{
    v[d] = (v[d] ^ v[a]).rotate_right(by);
}

// The mixing function G on the words at a, b, c and d.
#[inline(always)]
#[tactic(auto, unfolding(crate::specs::Compress::mixed))]
fn mix(v: &mut [u32; 16], a: usize, b: usize, c: usize, d: usize, x: u32, y: u32)
    requires { (a < 16) × ((b < 16) × ((c < 16) × (d < 16))) }
    ensures { v.new ≡ mixed v.old a b c d x y }
{
    add(v, a, b, x);
    turn(v, d, a, 16);
    add(v, c, d, 0);
    turn(v, b, c, 12);
    add(v, a, b, y);
    turn(v, d, a, 8);
    add(v, c, d, 0);
    turn(v, b, c, 7);
}

// The message word at place j of round r.
#[inline(always)]
fn message(m: &[u32; 16], r: usize, j: usize) -> u32
    requires { (r < 10) × (j < 16) }
    ensures { result ≡ word m.now r j }
{
    m[SIGMA[r][j] as usize]
}

// Round r: first the columns of the four by four working words, then the diagonals.
#[inline(always)]
#[tactic(auto, unfolding(crate::specs::Compress::columns, crate::specs::Compress::diagonals))]
fn round(v: &mut [u32; 16], m: &[u32; 16], r: usize)
    requires { r < 10 }
    ensures { v.new ≡ diagonals m.now r (columns m.now r v.old) }
{
    mix(v, 0, 4, 8, 12, message(m, r, 0), message(m, r, 1));
    mix(v, 1, 5, 9, 13, message(m, r, 2), message(m, r, 3));
    mix(v, 2, 6, 10, 14, message(m, r, 4), message(m, r, 5));
    mix(v, 3, 7, 11, 15, message(m, r, 6), message(m, r, 7));
    mix(v, 0, 5, 10, 15, message(m, r, 8), message(m, r, 9));
    mix(v, 1, 6, 11, 12, message(m, r, 10), message(m, r, 11));
    mix(v, 2, 7, 8, 13, message(m, r, 12), message(m, r, 13));
    mix(v, 3, 4, 9, 14, message(m, r, 14), message(m, r, 15));
}

// The sixteen working words that a compression starts from.
fn work(h: [u32; 8], t: u64, last: bool) -> [u32; 16]
    ensures { result ≡ working h t last }
{
    let low = (t % 0x1_0000_0000) as u32;
    let high = (t / 0x1_0000_0000) as u32;
    let flag = if last { u32::MAX } else { 0 };
    // Kept: word by word, which meets the bar, the plain Rust of docs/BENCHMARKS.md on the same machine (2.34 ms beside its
    // 2.36 ms for 1 MiB); copying the state and the constants into place misses it: 2.49 ms where this took 2.36 ms.
    [
        h[0],
        h[1],
        h[2],
        h[3],
        h[4],
        h[5],
        h[6],
        h[7],
        IV[0],
        IV[1],
        IV[2],
        IV[3],
        IV[4] ^ low,
        IV[5] ^ high,
        IV[6] ^ flag,
        IV[7],
    ]
}

/// The working words of a compression after its first n rounds, or after all ten.
#[tactic(auto, unfolding(crate::specs::Compress::rounds))]
pub fn working_words(h: [u32; 8], m: [u32; 16], t: u64, last: bool, n: usize) -> [u32; 16]
    ensures { result ≡ rounds (min n 10) m (working h t last) }
{
    let mut v = work(h, t, last);
    for r in 0..n.min(10) {
        round(&mut v, &m, r);
    }
    v
}

// The ten rounds.
// Kept: written out, which meets the bar, the plain Rust of docs/BENCHMARKS.md on the same machine: 148 ns beside its 149 ns
// for 64 bytes, 2.34 ms beside its 2.36 ms for 1 MiB. A loop over `round` reads the orders from the table at each step and
// misses it: 252 ns where the rounds written out took 171 ns on a loaded machine, and 3.17 ms where they took 2.36 ms.
#[tactic(auto, unfolding(crate::specs::Compress::rounds))]
fn ten_rounds(v: &mut [u32; 16], m: &[u32; 16])
    ensures { v.new ≡ rounds 10 m.now v.old }
{
    round(v, m, 0);
    round(v, m, 1);
    round(v, m, 2);
    round(v, m, 3);
    round(v, m, 4);
    round(v, m, 5);
    round(v, m, 6);
    round(v, m, 7);
    round(v, m, 8);
    round(v, m, 9);
}

// Kept: the block, the counter and the flag are parameters, as in the standard's F(h, m, t, f): each call has them by
// themselves, as `compress(&mut h, Input { m: to_words(&block), t, last: true })`, and `work` takes two of the three.
/// The compression function F: the state after the block `m`, where `t` bytes have come with the end of this block.
pub fn compress(h: &mut [u32; 8], m: [u32; 16], t: u64, last: bool)
    ensures { h.new ≡ compressed h.old m t last }
{
    let mut v = work(*h, t, last);
    ten_rounds(&mut v, &m);
    for (i, word) in h.iter_mut().enumerate() {
        *word = *word ^ v[i] ^ v[i + 8];
    }
}
