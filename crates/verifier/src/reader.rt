// Parsing a round's commitment, with its out-of-domain samples.
ghost use Rattle.std.specs.Prelude.{◌≡◌, length, Option, Ok};
ghost use Rattle.configuration.specs.Numbers.{numbers_of};
ghost use Rattle.transcript.specs.Shape.{round_shape};
ghost use Rattle.verification.specs.Drawing.{by_word};
ghost use Rattle.verification.specs.Setting.{setting};
ghost use Rattle.verifier.specs.Inputs.{item_of};
ghost use Rattle.sponge.specs.Play.{each};
ghost use Rattle.sponge.specs.Plays.{Plays};
ghost use Rattle.verifier.specs.Reader.{sampled, Parsed};

use crate::WhirVerifier;
use commit::OpeningScheme;
use commit::view::part;
use domain::WhirDomain;
use errors::VerifierError;
use field::{BaseField, ExtensionField};
use proof::whir_proof::{WhirProof, WhirRoundProof};
use sponge::Sponge;
use transcript::run::Run;

// Draws a point into each place, and observes the answer there.
fn draw_samples<F: BaseField, E: ExtensionField<F>, S: Sponge>(
    run: &Run,
    sponge: &mut S,
    answers: &[E],
    samples: &mut [E],
)
    requires { length answers.now ≡ length samples.old }
    ensures { Plays S.Sponge.rules (S.Sponge.held sponge.old) (each (sampled F.BaseField.numbering E.ExtensionField.extension) answers.now) (Ok samples.new) (S.Sponge.held sponge.new) }
{
    for (i, place) in samples.iter_mut().enumerate() {
        *place = run.ood_point::<F, E, S>(sponge);
        run.ood_answer::<F, E, S>(sponge, answers[i]);
    }
}

impl<'a, F: BaseField, E: ExtensionField<F>, D: WhirDomain<F>, O: OpeningScheme<F>> WhirVerifier<
    'a,
    F,
    E,
    D,
    O,
> {
    // Parses a commitment for a specific round: it is observed, a point is drawn into each place, and the answer there is observed.
    pub(crate) fn parse_with_round<'b, S: Sponge>(
        &self,
        run: &Run,
        sponge: &mut S,
        proof: &WhirProof<'b, F, E, O::Commitment, O::Node>,
        round_proof: &WhirRoundProof<F>,
        round: usize,
        samples: &mut [E],
    ) -> Result<&'b O::Commitment, VerifierError<E>>
        requires { length samples.old ≡ (round_shape (numbers_of self.now.config.now.numbers) round).samples }
        ensures { (opens : Option O.Commitment) → Parsed (setting (numbers_of self.now.config.now.numbers) self.now.variable_order F.Field.ops E.Field.ops E.PartialEq.eq F.BaseField.numbering E.ExtensionField.extension (by_word F.BaseField.numbering) (D.WhirDomain.meaning self.now.domain.now) (O.OpeningScheme.meaning self.now.scheme.now)) S.Sponge.rules (S.Sponge.held sponge.old) (item_of proof.now round_proof.now round opens) result (S.Sponge.held sponge.new) samples.old samples.new }
    {
        let Some(place) = round_proof.commitment else {
            return Err(VerifierError::MissingRoundCommitment { round });
        };
        let Some(root) = proof.lists.commitments.get(place) else {
            return Err(VerifierError::MissingRoundCommitment { round });
        };
        let answers = part(
            proof.lists.extension,
            round_proof.ood_answers.start,
            round_proof.ood_answers.length,
        );
        if answers.len() != samples.len() {
            return Err(VerifierError::RoundOodAnswerCountMismatch {
                round,
                expected: samples.len(),
                actual: answers.len(),
            });
        }
        run.commitment(sponge, &self.scheme.commitment_bytes(root));
        draw_samples::<F, E, S>(run, sponge, answers, samples);
        Ok(root)
    }
}
