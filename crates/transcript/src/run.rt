// A run that has been opened: its steps, and its end.
ghost use Rattle.std.specs.Prelude.{◌≡◌, not, is_some, MatchOption, Ok, nat_eq};
ghost use Rattle.sponge.specs.Play.{observe as observing};
ghost use Rattle.sponge.specs.Plays.{Plays};
ghost use Rattle.sponge.specs.Drawing.{draw_extension, observe_extension};
ghost use Rattle.configuration.specs.Numbers.{numbers_of};
ghost use Rattle.transcript.specs.Shape.{difficulty};
ghost use Rattle.transcript.specs.Sites.{phase_of};
ghost use Rattle.transcript.specs.Opening.{opening};
ghost use Rattle.transcript.specs.Positions.{IndicesFrom};
ghost use Rattle.transcript.specs.Playing.{query_grinding, values_observed, final_values, canonical};

use crate::delegated::Delegated;
use crate::failure::{NoRoom, TranscriptFailure};
use crate::opening::observe_separator;
use crate::positions::redraw;
use crate::sites::{final_poly_len, query_site};
use configuration::whir::WhirConfig;
use field::{BaseField, ExtensionField};
use sponge::Sponge;
use sponge::drawing::{check_witness, draw_extension, observe_extension};

// A run that has been opened and not yet closed. It is no `Drop`: it is closed by `finish` or by `abort`, and by nothing else.
pub struct Run {
    mark: (),
}

// Kept: the sponge is handed to each step, and the configuration to each that reads it. A `Run<'a, S>` that held the sponge as `&'a mut S` was
// tried and proved, but it asks more of callers, who could not read or use the sponge between two steps, and each of ten steps would promise
// a fact more: that the reference stays. One that borrowed the configuration would keep its owner from moving or changing it until it is closed.
impl Run {
    // Opens a run: the separator of the configuration is observed.
    pub fn open<F: BaseField, E: ExtensionField<F>, S: Sponge>(
        sponge: &mut S,
        config: &WhirConfig,
        num_opening_claims: usize,
    ) -> Run
        ensures { Plays S.Sponge.rules (S.Sponge.held sponge.old) (opening (numbers_of config.now.numbers) E.ExtensionField.extension.degree num_opening_claims) (Ok tt) (S.Sponge.held sponge.new) }
    {
        observe_separator(sponge, config, E::degree(), num_opening_claims);
        Run { mark: () }
    }

    // Closes a run whose every step was played.
    //
    // Kept: `finish` and `abort` are the original's own two ends; one function for both would be told which end it is, and would not read it.
    pub fn finish(self) {
        let Run { mark: _ } = self;
    }

    // Closes a run because the proof is being rejected.
    pub fn abort(self) {
        let Run { mark: _ } = self;
    }

    // Binds one round's commitment, by the bytes that its scheme gives.
    pub fn commitment<S: Sponge>(&self, sponge: &mut S, bytes: &[u8])
        ensures { Plays S.Sponge.rules (S.Sponge.held sponge.old) (observing {R = ⊥} bytes.now) (Ok tt) (S.Sponge.held sponge.new) }
    {
        sponge.observe(bytes);
    }

    // Draws one out-of-domain evaluation point.
    //
    // Kept: `ood_point` and `round_batching` are two steps of the original's own, each one call of the generic `draw_extension`; one function
    // for both would be told which step it is, and would not read it.
    pub fn ood_point<F: BaseField, E: ExtensionField<F>, S: Sponge>(&self, sponge: &mut S) -> E
        ensures { Plays S.Sponge.rules (S.Sponge.held sponge.old) (draw_extension F.BaseField.numbering E.ExtensionField.extension) (Ok result) (S.Sponge.held sponge.new) }
    {
        draw_extension::<F, E, S>(sponge)
    }

    // Binds the answer at one out-of-domain point.
    pub fn ood_answer<F: BaseField, E: ExtensionField<F>, S: Sponge>(
        &self,
        sponge: &mut S,
        answer: E,
    )
        ensures { Plays S.Sponge.rules (S.Sponge.held sponge.old) (observe_extension F.BaseField.numbering E.ExtensionField.extension answer) (Ok tt) (S.Sponge.held sponge.new) }
    {
        observe_extension::<F, E, S>(sponge, answer);
    }

    // Draws the challenge weighting one round's fresh constraints.
    pub fn round_batching<F: BaseField, E: ExtensionField<F>, S: Sponge>(&self, sponge: &mut S) -> E
        ensures { Plays S.Sponge.rules (S.Sponge.held sponge.old) (draw_extension F.BaseField.numbering E.ExtensionField.extension) (Ok result) (S.Sponge.held sponge.new) }
    {
        draw_extension::<F, E, S>(sponge)
    }

    // Runs the sumcheck that opens the run. Its bracket observes and draws nothing.
    //
    // Kept: `delegate_initial_fold` and `delegate_round_fold` are two brackets of the original's own, each one call of what is delegated; one
    // function for both would be told which bracket it is, and would not read it.
    pub fn delegate_initial_fold<S: Sponge, D: Delegated<S>>(
        &self,
        sponge: &mut S,
        initial_fold: D,
    ) -> D::Answer
        ensures { D.Delegated.runs initial_fold (S.Sponge.held sponge.old) result (S.Sponge.held sponge.new) }
    {
        initial_fold.run(sponge)
    }

    // Runs the sumcheck that closes one intermediate round. Its bracket observes and draws nothing.
    pub fn delegate_round_fold<S: Sponge, D: Delegated<S>>(
        &self,
        sponge: &mut S,
        round_fold: D,
    ) -> D::Answer
        ensures { D.Delegated.runs round_fold (S.Sponge.held sponge.old) result (S.Sponge.held sponge.new) }
    {
        round_fold.run(sponge)
    }

    // Runs the sumcheck that closes the run, if there is one: where it has no rounds, nothing is run, observed or drawn.
    pub fn delegate_final_fold<S: Sponge, D: Delegated<S> + Drop>(
        &self,
        sponge: &mut S,
        config: &WhirConfig,
        final_fold: D,
    ) -> Option<D::Answer>
        ensures fold { is_some result ≡ not (nat_eq config.now.numbers.final_sumcheck_rounds 0) }
        ensures runs { MatchOption result (sponge.new ≡ sponge.old) (λ answer. D.Delegated.runs final_fold (S.Sponge.held sponge.old) answer (S.Sponge.held sponge.new)) }
    {
        if config.numbers.final_sumcheck_rounds == 0 {
            return None;
        }
        Some(final_fold.run(sponge))
    }

    // Replays the grind of the query site of a round.
    pub fn query_pow<F: BaseField, S: Sponge>(
        &self,
        sponge: &mut S,
        config: &WhirConfig,
        round: usize,
        witness: F,
    ) -> Result<(), TranscriptFailure>
        ensures { Plays S.Sponge.rules (S.Sponge.held sponge.old) (query_grinding F.BaseField.numbering (numbers_of config.now.numbers) round witness) result (S.Sponge.held sponge.new) }
    {
        let bits = query_site(config, round).pow_bits;
        if check_witness(sponge, bits as u32, witness.number()) {
            Ok(())
        } else {
            Err(TranscriptFailure::PowWitness { round, bits })
        }
    }

    // Redraws the query indices of a round into a slice, from a place on; where they have no room, nothing is drawn or written.
    //
    // A round at or past the last one names the final site.
    pub fn query_indices<S: Sponge>(
        &self,
        sponge: &mut S,
        config: &WhirConfig,
        round: usize,
        out: &mut [usize],
        from: usize,
    ) -> Result<(), NoRoom>
        ensures { IndicesFrom S.Sponge.rules (numbers_of config.now.numbers) (phase_of (numbers_of config.now.numbers) round) result (S.Sponge.held sponge.old) (S.Sponge.held sponge.new) from out.old out.new }
    {
        if from > out.len() {
            return Err(NoRoom);
        }
        let (_, part) = out.split_at_mut(from);
        redraw(sponge, config, round, part)
    }

    // Binds the final polynomial the proof carries, if it has as many values as were described.
    pub fn final_poly<F: BaseField, E: ExtensionField<F>, S: Sponge>(
        &self,
        sponge: &mut S,
        config: &WhirConfig,
        evaluations: &[E],
    ) -> Result<(), TranscriptFailure>
        ensures { Plays S.Sponge.rules (S.Sponge.held sponge.old) (final_values F.BaseField.numbering E.ExtensionField.extension (numbers_of config.now.numbers) evaluations.now) result (S.Sponge.held sponge.new) }
    {
        let expected = final_poly_len(config);
        let got = evaluations.len();
        if got != expected {
            return Err(TranscriptFailure::FinalPolyLength { expected, got });
        }
        observe_values::<F, E, S>(sponge, evaluations);
        Ok(())
    }
}

// Each value is observed by itself.
fn observe_values<F: BaseField, E: ExtensionField<F>, S: Sponge>(sponge: &mut S, values: &[E])
    ensures { Plays S.Sponge.rules (S.Sponge.held sponge.old) (values_observed F.BaseField.numbering E.ExtensionField.extension values.now) (Ok tt) (S.Sponge.held sponge.new) }
{
    for value in values {
        observe_extension::<F, E, S>(sponge, *value);
    }
}

// Refuses a query witness that is not 0 where no work is asked for.
//
// Kept: it is no step of a run, since a proof is asked this before a run of it is opened.
pub fn check_canonical<F: BaseField>(
    config: &WhirConfig,
    round: usize,
    witness: F,
) -> Result<(), TranscriptFailure>
    ensures { result ≡ canonical (difficulty (numbers_of config.now.numbers) (phase_of (numbers_of config.now.numbers) round)) round (F.BaseField.numbering.number witness) }
{
    if query_site(config, round).pow_bits == 0 && witness.number() != 0 {
        return Err(TranscriptFailure::NonCanonicalPowWitness { round });
    }
    Ok(())
}
