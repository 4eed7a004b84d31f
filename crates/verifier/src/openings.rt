// The queries of a phase: their grinding, their positions, and the rows that are opened there.
ghost use Rattle.std.specs.Prelude.{◌≡◌, ◌≤◌, Some, length};
ghost use Rattle.configuration.specs.Numbers.{numbers_of};
ghost use Rattle.configuration.specs.Phases.{rows};
ghost use Rattle.verification.specs.Drawing.{by_word};
ghost use Rattle.verification.specs.Setting.{setting, last};
ghost use Rattle.verification.specs.Checks.{verdict};
ghost use Rattle.verification.specs.Verifying.{right_kind, opening_checks, rows_right};
ghost use Rattle.verifier.specs.Rows.{rows_of, opening_of};
ghost use Rattle.verifier.specs.Openings.{queried_play, Queried};

use crate::WhirVerifier;
use crate::phases::phase_shape;
use crate::rows::{Opened, OpenedRows};
use commit::extension::ExtensionScheme;
use commit::view::Flat;
use commit::{OpeningScheme, Places};
use domain::WhirDomain;
use errors::{OpeningFault, VerifierError};
use field::{BaseField, ExtensionField};
use sponge::Sponge;
use transcript::run::Run;

impl<'a, F, E> OpenedRows<'a, F, E> {
    // Whether rows are of the kind that a phase opens: of the base in phase 0, of the extension later.
    fn suits(&self, phase: usize) -> bool
        ensures { result ≡ right_kind phase (rows_of self.now) }
    {
        match self {
            OpenedRows::Base(_) => phase == 0,
            OpenedRows::Extension(_) => phase != 0,
        }
    }
}

impl<'a, F: BaseField, E: ExtensionField<F>, D: WhirDomain<F>, O: OpeningScheme<F>> WhirVerifier<
    'a,
    F,
    E,
    D,
    O,
> {
    // Verifies the opening of one phase at positions, against a commitment.
    pub(crate) fn verify_merkle_proof(
        &self,
        phase: usize,
        commitment: &O::Commitment,
        indices: &[usize],
        opened: &Opened<F, E, O::Node>,
    ) -> Result<(), VerifierError<E>>
        requires { phase ≤ length self.now.config.now.numbers.round_parameters.items }
        ensures { result ≡ verdict (opening_checks (setting (numbers_of self.now.config.now.numbers) self.now.variable_order F.Field.ops E.Field.ops E.PartialEq.eq F.BaseField.numbering E.ExtensionField.extension (by_word F.BaseField.numbering) (D.WhirDomain.meaning self.now.domain.now) (O.OpeningScheme.meaning self.now.scheme.now)) phase (Some commitment.now) indices.now (opening_of opened.now)) tt }
    {
        let position = 0;
        if !opened.rows.suits(phase) {
            let reason = OpeningFault::Kind;
            return Err(VerifierError::MerkleProofInvalid {
                phase,
                position,
                reason,
            });
        }
        if opened.count != indices.len() {
            return Err(VerifierError::StirQueryCountMismatch {
                round: phase,
                expected: indices.len(),
                actual: opened.count,
            });
        }
        if self.rows_are_right(phase, commitment, indices, opened) {
            return Ok(());
        }
        let reason = match opened.rows {
            OpenedRows::Base(_) => OpeningFault::Base,
            OpenedRows::Extension(_) => OpeningFault::Extension,
        };
        Err(VerifierError::MerkleProofInvalid {
            phase,
            position,
            reason,
        })
    }

    // Whether the scheme says yes to rows and paths: those of the base by itself, those of the extension as rows of coefficients.
    fn rows_are_right(
        &self,
        phase: usize,
        commitment: &O::Commitment,
        indices: &[usize],
        opened: &Opened<F, E, O::Node>,
    ) -> bool
        requires { phase ≤ length self.now.config.now.numbers.round_parameters.items }
        ensures { result ≡ rows_right (setting (numbers_of self.now.config.now.numbers) self.now.variable_order F.Field.ops E.Field.ops E.PartialEq.eq F.BaseField.numbering E.ExtensionField.extension (by_word F.BaseField.numbering) (D.WhirDomain.meaning self.now.domain.now) (O.OpeningScheme.meaning self.now.scheme.now)) phase (Some commitment.now) indices.now (rows_of opened.now.rows) opened.now.paths.now }
    {
        let shape = phase_shape(self.config, phase);
        let width = 1 << shape.fold;
        let places = Places {
            positions: 1 << shape.log,
            indices,
            paths: opened.paths,
        };
        match opened.rows {
            OpenedRows::Base(elements) => {
                self.scheme
                    .check(commitment, &places, &Flat { elements, width })
            }
            OpenedRows::Extension(elements) => {
                ExtensionScheme::<F, E, O>::new(self.scheme).check(
                    commitment,
                    &places,
                    &Flat { elements, width },
                )
            }
        }
    }

    // The queries of a phase: the witness is ground, positions are drawn, one for each place, and the opening is verified.
    pub(crate) fn verify_stir_challenges<S: Sponge>(
        &self,
        run: &Run,
        sponge: &mut S,
        phase: usize,
        commitment: &O::Commitment,
        witness: F,
        opened: &Opened<F, E, O::Node>,
        positions: &mut [usize],
    ) -> Result<(), VerifierError<E>>
        requires phase { phase ≤ length self.now.config.now.numbers.round_parameters.items }
        requires room { length positions.old ≡ rows (numbers_of self.now.config.now.numbers) (numbers_of self.now.config.now.numbers).stored phase }
        ensures { Queried S.Sponge.rules (S.Sponge.held sponge.old) (queried_play (setting (numbers_of self.now.config.now.numbers) self.now.variable_order F.Field.ops E.Field.ops E.PartialEq.eq F.BaseField.numbering E.ExtensionField.extension (by_word F.BaseField.numbering) (D.WhirDomain.meaning self.now.domain.now) (O.OpeningScheme.meaning self.now.scheme.now)) phase (Some commitment.now) witness (opening_of opened.now)) result (S.Sponge.held sponge.new) positions.old positions.new }
    {
        run.query_pow(sponge, self.config, phase, witness)?;
        if run
            .query_indices(sponge, self.config, phase, positions, 0)
            .is_err()
        {
            return Err(VerifierError::BufferTooSmall);
        }
        self.verify_merkle_proof(phase, commitment, positions, opened)
    }
}
