// The claim that a round goes on with, the weight of its fresh claims at the end, and the last phase's rows beside the final polynomial.
ghost use Rattle.std.specs.Prelude.{◌≡◌, ◌≤◌, ◌^◌, ◌∷◌, ◌++◌, map, length, true};
ghost use Rattle.verifier.specs.Powers.{with_all};
ghost use Rattle.std.specs.List.{AllByRecursion};
ghost use Rattle.ring.specs.Polynomials.{value as at};
ghost use Rattle.multilinear.specs.Tables.{eq, select};
ghost use Rattle.multilinear.specs.Univariate.{expand};
ghost use Rattle.domain.specs.Domains.{inside};
ghost use Rattle.verifier.specs.Rows.{rows_of, elements, row_values, Complete};
ghost use Rattle.verifier.specs.Agreeing.{all_agree};

use crate::phases::PhaseShape;
use crate::points::Position;
use crate::powers::Powers;
use crate::rows::Opened;
use domain::WhirDomain;
use field::{BaseField, ExtensionField};
use multilinear::point::Point;
use multilinear::weight::eq_univariate;

// The carried claim with the fresh ones: the answers and then the rows' values, each by its power of γ, from the power 1 on.
pub(crate) fn join_claims<F: BaseField, E: ExtensionField<F>, N>(
    claim: E,
    gamma: E,
    answers: &[E],
    opened: &Opened<F, E, N>,
    point: &Point<E>,
    fold: &mut [E],
) -> E
    requires room { 2 ^ length point.now ≤ length fold.old }
    requires there { Complete opened.now.count (2 ^ length point.now) (elements E.ExtensionField.extension (rows_of opened.now.rows)) }
    ensures joins { result ≡ at E.Field.ops (claim ∷ (answers.now ++ row_values E.Field.ops (2 ^ length point.now) point.now opened.now.count (elements E.ExtensionField.extension (rows_of opened.now.rows)))) gamma }
    ensures long { length fold.new ≡ length fold.old }
{
    let powers = Powers {
        sum: claim,
        power: gamma,
        challenge: gamma,
    };
    let powers = powers.with_all(answers);
    opened.rows.with_rows(opened.count, point, fold, powers).sum
}

// The weights of samples, each standing for a point, at a point.
fn with_samples<E: ExtensionField<F>, F: BaseField>(
    powers: Powers<E>,
    samples: &[E],
    point: &Point<E>,
) -> Powers<E>
    ensures { result ≡ with_all E.Field.ops powers (map (λ z. eq E.Field.ops (expand E.Field.ops z (length point.now)) point.now) samples.now) }
{
    let mut powers = powers;
    for z in samples {
        powers = powers.with(eq_univariate(*z, point));
    }
    powers
}

// The weights of positions of a phase at a point.
fn with_positions<F: BaseField, E: ExtensionField<F>, D: WhirDomain<F>>(
    powers: Powers<E>,
    domain: &D,
    shape: PhaseShape,
    positions: &[usize],
    point: &Point<E>,
) -> Powers<E>
    requires long { length point.now ≡ shape.vars }
    requires inside { AllByRecursion (λ p. inside (D.WhirDomain.meaning domain.now).capacity shape.log shape.vars p ≡ true) positions.now }
    ensures { result ≡ with_all E.Field.ops powers (map (λ p. select E.Field.ops (map E.ExtensionField.extension.embed ((D.WhirDomain.meaning domain.now).point shape.log shape.vars p)) point.now) positions.now) }
{
    let mut powers = powers;
    for index in positions {
        let position = Position {
            log: shape.log,
            vars: shape.vars,
            index: *index,
        };
        powers = powers.with(position.weight::<F, E, D>(domain, point));
    }
    powers
}

// A weight so far, with that of a round's fresh claims: the samples and then the positions, each by its power of γ, from the power 1 on.
pub(crate) fn add_round_weight<F: BaseField, E: ExtensionField<F>, D: WhirDomain<F>>(
    weight: E,
    gamma: E,
    domain: &D,
    shape: PhaseShape,
    samples: &[E],
    positions: &[usize],
    point: &Point<E>,
) -> E
    requires long { length point.now ≡ shape.vars }
    requires inside { AllByRecursion (λ p. inside (D.WhirDomain.meaning domain.now).capacity shape.log shape.vars p ≡ true) positions.now }
    ensures { result ≡ E.Field.ops.add weight (E.Field.ops.mul gamma (at E.Field.ops (map (λ z. eq E.Field.ops (expand E.Field.ops z (length point.now)) point.now) samples.now ++ map (λ p. select E.Field.ops (map E.ExtensionField.extension.embed ((D.WhirDomain.meaning domain.now).point shape.log shape.vars p)) point.now) positions.now) gamma)) }
{
    let powers = Powers {
        sum: weight,
        power: gamma,
        challenge: gamma,
    };
    let powers = with_samples::<E, F>(powers, samples, point);
    with_positions::<F, E, D>(powers, domain, shape, positions, point).sum
}

// Whether each row of the last phase, evaluated at the draws, is the final polynomial's value at its position.
pub(crate) fn rows_agree<F: BaseField, E: ExtensionField<F>, D: WhirDomain<F>, N>(
    domain: &D,
    shape: PhaseShape,
    positions: &[usize],
    opened: &Opened<F, E, N>,
    point: &Point<E>,
    polynomial: &[E],
    fold: &mut [E],
) -> bool
    requires room { 2 ^ length point.now ≤ length fold.old }
    requires there { Complete opened.now.count (2 ^ length point.now) (elements E.ExtensionField.extension (rows_of opened.now.rows)) }
    requires each { opened.now.count ≡ length positions.now }
    requires long { length polynomial.now ≡ 2 ^ shape.vars }
    requires inside { AllByRecursion (λ p. inside (D.WhirDomain.meaning domain.now).capacity shape.log shape.vars p ≡ true) positions.now }
    ensures agree { result ≡ all_agree E.Field.ops E.PartialEq.eq (λ p. map E.ExtensionField.extension.embed ((D.WhirDomain.meaning domain.now).point shape.log shape.vars p)) polynomial.now positions.now (row_values E.Field.ops (2 ^ length point.now) point.now opened.now.count (elements E.ExtensionField.extension (rows_of opened.now.rows))) }
    ensures long { length fold.new ≡ length fold.old }
{
    for (row, index) in positions.iter().enumerate() {
        let position = Position {
            log: shape.log,
            vars: shape.vars,
            index: *index,
        };
        let claimed = opened.rows.row_value(row, point, fold);
        if claimed != position.value::<F, E, D>(domain, polynomial) {
            return false;
        }
    }
    true
}
