//! Sponges, and the plays that calls on a sponge are held to.
#![tactic(auto)]

ghost use Rattle.std.specs.Prelude.{◌≡◌, ℕ, List};
ghost use Rattle.sponge.specs.Play.{Rules, Play};
ghost use Rattle.sponge.specs.Laws.{DecidedByChecks, Settled, LeftByTrail};

pub mod archive;
pub mod drawing;
pub mod trial;

/// A sponge takes bytes in and gives words out; neither call refuses. It stands for a list of
/// numbers, and what a call makes of the list and answers depends on the list and the bytes alone.
pub trait Sponge: Sized {
    /// What a new sponge is made from.
    type Seed;

    // The list that a sponge stands for.
    ghost held: { Self → List ℕ };

    // The list of a new sponge.
    ghost fresh: { Self.Seed → List ℕ };

    // What its calls make of the list, and answer.
    ghost rules: { Rules };

    fn make(seed: Self::Seed) -> Self
        ensures { held result ≡ fresh seed };

    fn observe(&mut self, bytes: &[u8])
        ensures { held self.new ≡ rules.after_observe (held self.old) bytes.now };

    fn draw(&mut self) -> u32
        ensures list { held self.new ≡ rules.after_draw (held self.old) }
        ensures word { result ≡ rules.word (held self.old) };
}

/// A call that refuses with an `R` or answers with an `A`: the play that it is.
pub trait Call<R, A> {
    ghost play: { Play R A };
}

/// Of every play: it answers exactly where its checks hold, and then with what is read.
pub fn decided_by_checks_stands<R, A, C: Call<R, A>>()
    ensures { DecidedByChecks C.Call.play }
{}

/// Of every play: the words drawn settle what it answers, refuses and observes.
pub fn settled_by_words_stands<R, A, C: Call<R, A>>()
    ensures { Settled C.Call.play }
{}

/// Of every play: the list after it is that after the calls of its trail.
pub fn left_by_trail_stands<R, A, C: Call<R, A>>()
    ensures { LeftByTrail C.Call.play }
{}
