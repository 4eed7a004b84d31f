// What is asked before the sponge is touched.
ghost use Rattle.std.specs.Prelude.{◌≡◌, ◌&&◌, ℕ, length, nat_le};
ghost use Rattle.std.specs.List.{list_all};
ghost use Rattle.configuration.specs.Numbers.{numbers_of};
ghost use Rattle.configuration_view.specs.Shown.{buffers_of};
ghost use Rattle.verification.specs.Drawing.{by_word};
ghost use Rattle.verification.specs.Setting.{setting};
ghost use Rattle.verification.specs.Verifying.{suffices, claim_placed, prechecks};
ghost use Rattle.verification.specs.Checks.{verdict};
ghost use Rattle.transcript.specs.Shape.{last_phase};
ghost use Rattle.verifier.specs.Inputs.{inputs_of};
ghost use Rattle.verifier.specs.Witnesses.{witness_checks};

use crate::WhirVerifier;
use commit::OpeningScheme;
use configuration::whir::WhirConfig;
use configuration_view::phases::Buffers;
use configuration_view::view::buffers_needed;
use domain::WhirDomain;
use errors::VerifierError;
use field::{BaseField, ExtensionField};
use proof::claims::{Claim, Claims};
use proof::whir_proof::{WhirProof, WhirRoundProof};
use transcript::failure::TranscriptFailure;
use transcript::run::check_canonical;

// Whether a claim's point has so many coordinates, which stand within a list of that many.
fn claim_fits<E>(variables: usize, coordinates: usize, claim: &Claim<E>) -> bool
    ensures { result ≡ claim_placed variables coordinates claim.now }
{
    claim.point.length == variables && claim.point.fits(1, coordinates)
}

// Whether there are at most 1,024 claims, each of which fits.
fn claims_fit<E>(variables: usize, claims: &Claims<E>) -> bool
    ensures { result ≡ (nat_le (length claims.now.claims.now) 1024 && list_all (claim_placed variables (length claims.now.coordinates.now)) claims.now.claims.now) }
{
    let coordinates = claims.coordinates.len();
    claims.claims.len() <= 1024
        && claims
            .claims
            .iter()
            .all(|claim| claim_fits(variables, coordinates, claim))
}

// Whether buffers of these lengths are long enough.
fn buffers_suffice(needed: Buffers, given: Buffers) -> bool
    ensures { result ≡ suffices needed given }
{
    needed.point <= given.point
        && needed.pair <= given.pair
        && needed.fold <= given.fold
        && needed.notes <= given.notes
        && needed.positions <= given.positions
}

// Refuses the first witness that is to be 0 and is not: of each round in turn, and of the final phase.
fn check_witnesses<F: BaseField>(
    config: &WhirConfig,
    rounds: &[WhirRoundProof<F>],
    last: F,
) -> Result<(), TranscriptFailure>
    requires { length rounds.now ≡ last_phase (numbers_of config.now.numbers) }
    ensures { result ≡ verdict (witness_checks F.BaseField.numbering (numbers_of config.now.numbers) 0 rounds.now last) tt }
{
    for (round, proof) in rounds.iter().enumerate() {
        check_canonical(config, round, proof.pow_witness)?;
    }
    check_canonical(config, rounds.len(), last)
}

impl<'a, F: BaseField, E: ExtensionField<F>, D: WhirDomain<F>, O: OpeningScheme<F>> WhirVerifier<
    'a,
    F,
    E,
    D,
    O,
> {
    // Refuses what is refused before the sponge is touched: claims, buffers, the number of rounds, witnesses that are to be 0.
    pub(crate) fn check_inputs(
        &self,
        proof: &WhirProof<F, E, O::Commitment, O::Node>,
        claims: &Claims<E>,
        lengths: Buffers,
    ) -> Result<(), VerifierError<E>>
        ensures { (c : O.Commitment) (n : ℕ) → result ≡ verdict (prechecks (setting (numbers_of self.now.config.now.numbers) self.now.variable_order F.Field.ops E.Field.ops E.PartialEq.eq F.BaseField.numbering E.ExtensionField.extension (by_word F.BaseField.numbering) (D.WhirDomain.meaning self.now.domain.now) (O.OpeningScheme.meaning self.now.scheme.now)) (inputs_of proof.now c n claims.now lengths)) tt }
    {
        if !claims_fit(self.config.numbers.num_variables, claims) {
            return Err(VerifierError::Limit);
        }
        if !buffers_suffice(buffers_needed(self.config), lengths) {
            return Err(VerifierError::BufferTooSmall);
        }
        let (expected, actual) = (self.config.n_rounds(), proof.parts.rounds.len());
        if actual != expected {
            return Err(VerifierError::RoundCountMismatch { expected, actual });
        }
        check_witnesses(
            self.config,
            proof.parts.rounds,
            proof.parts.final_pow_witness,
        )?;
        Ok(())
    }
}
