// The claims that a verification is handed: their sum, and their weight at a point, by the powers of α.
ghost use Rattle.std.specs.Prelude.{◌≡◌, map, length};
ghost use Rattle.std.specs.List.{AllByRecursion};
ghost use Rattle.multilinear.specs.Tables.{eq};
ghost use Rattle.ring.specs.Polynomials.{value as at};
ghost use Rattle.verification.specs.Proof.{part};

use crate::powers::Powers;
use commit::view::part;
use field::Field;
use multilinear::point::Point;
use multilinear::weight::eq_at;
use proof::claims::{Claim, Claims};

// The coordinates of a claim's point.
fn point_of<'a, E>(claims: &Claims<'a, E>, claim: &Claim<E>) -> &'a [E]
    ensures { result.now ≡ part claims.now.coordinates.now claim.now.point }
{
    part(claims.coordinates, claim.point.start, claim.point.length)
}

// The sum of the claimed values, each by its power of α, from the power 0 on.
pub(crate) fn batch<E: Field>(claims: &Claims<E>, alpha: E) -> E
    ensures { result ≡ at E.Field.ops (map (λ q. q.value) claims.now.claims.now) alpha }
{
    let mut powers = Powers {
        sum: E::zero(),
        power: E::one(),
        challenge: alpha,
    };
    for index in 0..claims.claims.len() {
        powers = powers.with(claims.claims[index].value);
    }
    powers.sum
}

// The sum of the claims' weights at a point, by the same powers.
pub(crate) fn weigh_claims<E: Field>(claims: &Claims<E>, alpha: E, point: &Point<E>) -> E
    requires { AllByRecursion (λ q. length (part claims.now.coordinates.now q.point) ≡ length point.now) claims.now.claims.now }
    ensures { result ≡ at E.Field.ops (map (λ q. eq E.Field.ops (part claims.now.coordinates.now q.point) point.now) claims.now.claims.now) alpha }
{
    let mut powers = Powers {
        sum: E::zero(),
        power: E::one(),
        challenge: alpha,
    };
    for index in 0..claims.claims.len() {
        let coordinates = point_of(claims, &claims.claims[index]);
        powers = powers.with(eq_at(coordinates, point).unwrap_or(E::zero()));
    }
    powers.sum
}
