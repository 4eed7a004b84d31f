//! Sumcheck: messages, their witnesses, and the claim that they lead to.
#![tactic(auto)]

ghost use Rattle.std.specs.Prelude.{◌≡◌, length, map, slice_index_or};
ghost use Rattle.sponge.specs.Plays.{Plays};
ghost use Rattle.sponge.specs.Drawing.{draw_base};
ghost use Rattle.sumcheck.specs.Rounds.{count_checks, turn, sumcheck};
ghost use Rattle.sumcheck.specs.Verified.{sent_by, final_sent, rounds_at, Counted, turned, Verified};

use argument::claim_after;
use errors::SumcheckError;
use field::{BaseField, ExtensionField};
use sponge::Sponge;
use sponge::drawing::{check_witness, draw_extension, observe_extension};

pub mod errors;
#[cfg(test)]
mod tests;

/// Which sumcheck it is, by the number of those before it, and the difficulty of each round's grinding.
#[derive(Clone, Copy, PartialEq, Eq, Debug)]
pub struct Site {
    pub phase: usize,
    pub pow_bits: u32,
}

/// What a sumcheck sends: its messages, each h0 and then h2, one after another; and its witnesses.
#[derive(Clone, Copy, PartialEq, Eq, Debug)]
pub struct SumcheckSlices<'a, F, E> {
    pub messages: &'a [E],
    pub witnesses: &'a [F],
}

// Refuses another number of messages than rounds, and then another number of witnesses than are due: one a round, none where nothing is
// ground.
fn check_counts<F, E>(
    site: Site,
    sent: &SumcheckSlices<F, E>,
    rounds: usize,
) -> Result<(), SumcheckError>
    ensures { Counted (count_checks (rounds_at site rounds) (sent_by sent.now)) result }
{
    let messages = sent.messages.len() / 2;
    if messages != rounds {
        return Err(SumcheckError::MessageCount {
            phase: site.phase,
            expected: rounds,
            actual: messages,
        });
    }
    let due = if site.pow_bits == 0 { 0 } else { rounds };
    let witnesses = sent.witnesses.len();
    if witnesses != due {
        return Err(SumcheckError::WitnessCount {
            phase: site.phase,
            expected: due,
            actual: witnesses,
        });
    }
    Ok(())
}

// The number of a round's witness, or 0 where there is none.
fn witness_at<F: BaseField>(witnesses: &[F], round: usize) -> u32
    ensures { result ≡ slice_index_or (map F.BaseField.numbering.number witnesses.now) round 0 }
{
    witnesses.get(round).map_or(0, |witness| witness.number())
}

// One round: the message is observed, the witness ground, a challenge drawn.
fn verify_turn<F: BaseField, E: ExtensionField<F>, S: Sponge>(
    sponge: &mut S,
    site: Site,
    round: usize,
    h0: E,
    h2: E,
    witness: u32,
) -> Result<E, SumcheckError>
    ensures { Plays S.Sponge.rules (S.Sponge.held sponge.old) (turn F.BaseField.numbering E.ExtensionField.extension (draw_base F.BaseField.numbering) (rounds_at site 0) (record { number = round; message = record { h0 = h0; h2 = h2 }; witness = witness })) (turned h0 h2 result) (S.Sponge.held sponge.new) }
{
    observe_extension::<F, E, S>(sponge, h0);
    observe_extension::<F, E, S>(sponge, h2);
    if !check_witness(sponge, site.pow_bits, witness) {
        return Err(SumcheckError::Grind {
            phase: site.phase,
            round,
            bits: site.pow_bits as usize,
        });
    }
    Ok(draw_extension::<F, E, S>(sponge))
}

/// Verifies a sumcheck of as many rounds as there are places: answers the claim that it leads to, and writes its challenges.
pub fn verify_rounds<F: BaseField, E: ExtensionField<F>, S: Sponge>(
    sponge: &mut S,
    site: Site,
    sent: &SumcheckSlices<F, E>,
    claim: E,
    randomness: &mut [E],
) -> Result<E, SumcheckError>
    ensures { Verified E.Field.ops S.Sponge.rules (S.Sponge.held sponge.old) (sumcheck F.BaseField.numbering E.ExtensionField.extension (draw_base F.BaseField.numbering) (rounds_at site (length randomness.old)) (sent_by sent.now)) (S.Sponge.held sponge.new) claim result randomness.old randomness.new }
{
    check_counts(site, sent, randomness.len())?;
    let mut claim = claim;
    for (round, place) in randomness.iter_mut().enumerate() {
        let h0 = sent.messages[2 * round];
        let h2 = sent.messages[2 * round + 1];
        let witness = witness_at(sent.witnesses, round);
        let r = verify_turn::<F, E, S>(sponge, site, round, h0, h2, witness)?;
        claim = claim_after(claim, h0, h2, r);
        *place = r;
    }
    Ok(claim)
}

/// The sumcheck that closes a run: one that is missing has no messages and no witnesses; where no rounds are due it is not read.
pub fn verify_final_sumcheck_rounds<F: BaseField, E: ExtensionField<F>, S: Sponge>(
    sponge: &mut S,
    site: Site,
    sent: Option<SumcheckSlices<F, E>>,
    claim: E,
    randomness: &mut [E],
) -> Result<E, SumcheckError>
    ensures { Verified E.Field.ops S.Sponge.rules (S.Sponge.held sponge.old) (sumcheck F.BaseField.numbering E.ExtensionField.extension (draw_base F.BaseField.numbering) (rounds_at site (length randomness.old)) (final_sent (length randomness.old) sent.entry)) (S.Sponge.held sponge.new) claim result randomness.old randomness.new }
{
    if randomness.is_empty() {
        return Ok(claim);
    }
    let nothing = SumcheckSlices {
        messages: &[],
        witnesses: &[],
    };
    verify_rounds::<F, E, S>(sponge, site, &sent.unwrap_or(nothing), claim, randomness)
}
