// What a run hands on to be run inside one of its brackets.
ghost use Rattle.std.specs.Prelude.{ℕ, List, Ok};
ghost use Rattle.sponge.specs.Plays.{Plays};
ghost use Rattle.transcript.specs.Playing.{nothing};

use sponge::Sponge;

// A sumcheck that is delegated: it is given the run's sponge, and answers.
//
// Kept: a trait of its own in place of `FnOnce(&mut S) -> R`: a call of a closure was proved only under a `requires` that it may be called,
// and no public function has a `requires`.
pub trait Delegated<S: Sponge> {
    type Answer;

    // What it may answer and leave: of itself, the list that the sponge stood for, the answer and the list after it.
    ghost runs: { Self → List ℕ → Self.Answer → List ℕ → Type 0 };

    fn run(self, sponge: &mut S) -> Self::Answer
        ensures { runs self (S.Sponge.held sponge.old) result (S.Sponge.held sponge.new) };
}

// Where nothing is delegated, nothing is observed or drawn.
impl<S: Sponge> Delegated<S> for () {
    type Answer = ();

    ghost runs = { λ _ before answer after. Plays S.Sponge.rules before nothing (Ok answer) after };

    fn run(self, sponge: &mut S) {}
}
