ghost use Rattle.std.specs.Prelude.{◌≡◌, ℕ, length, Some, None, ◌≢◌};
ghost use Rattle.multilinear.specs.Tables.{product, eq, select};
ghost use Rattle.multilinear.specs.Univariate.{expand};
ghost use Rattle.multilinear.specs.Weights.{factor_of};

use crate::point::Point;
use field::Field;

// The two weights of a corner at a point.
// Kept: a closure for the factor would give each of `weigh`, `weigh_univariate`, `by_halves` and `weigh_table` a `requires` that it may be called, and
// in place of `factor_of .. weight` a premise, `(f : F → F → F) → ((p x r : F) → W.post factor p x r → r ≡ f p x) → ..`, to be shown at each of
// their nine calls, two of them in the recursion; a trait would be two unit structs and two impls, each with a ghost factor, in place of one match.
#[derive(Clone, Copy, Debug, PartialEq, Eq)]
pub enum Weight {
    Eq,
    Select,
}

impl Weight {
    // The factor of one coordinate.
    #[tactic(auto, unfolding(crate::specs::Tables::eq_factor, crate::specs::Tables::select_factor))]
    pub(crate) fn factor<F: Field>(self, p: F, x: F) -> F
        ensures { result ≡ factor_of F.Field.ops self p x }
    {
        let one = F::one();
        match self {
            Weight::Eq => p.mul(x).add(one.sub(p).mul(one.sub(x))),
            Weight::Select => one.sub(x).add(x.mul(p)),
        }
    }
}

// The product of the factors, where both points have as many coordinates.
fn weigh<F: Field>(weight: Weight, point: &[F], x: &Point<F>) -> Option<F>
    ensures fits { length point.now ≡ length x.now → result ≡ Some (product F.Field.ops (factor_of F.Field.ops weight) point.now x.now) }
    ensures refuses { (length point.now ≢ length x.now) → result ≡ None }
{
    if point.len() != x.len() {
        return None;
    }
    let all = point
        .iter()
        .zip(x.iter())
        .fold(F::one(), |all, (p, x)| all.mul(weight.factor(*p, x)));
    Some(all)
}

// The product of the factors at the point that v stands for, by running squares from the last coordinate.
#[tactic(auto, using(crate::proofs::Loops::weighed_none, crate::proofs::Loops::weighed_more, crate::proofs::Loops::weighed_all))]
fn weigh_univariate<F: Field>(weight: Weight, v: F, x: &Point<F>) -> F
    ensures { result ≡ product F.Field.ops (factor_of F.Field.ops weight) (expand F.Field.ops v (length x.now)) x.now }
{
    let mut all = F::one();
    let mut power = v;
    for x in x.iter().rev() {
        all = weight.factor(power, x).mul(all);
        power = power.mul(power);
    }
    all
}

// eq(point, x); None where the lengths differ.
// Kept: the four functions of one weight are the names of the two weights' values, one call each; the generic two stay private.
pub fn eq_at<F: Field>(point: &[F], x: &Point<F>) -> Option<F>
    ensures fits { length point.now ≡ length x.now → result ≡ Some (eq F.Field.ops point.now x.now) }
    ensures refuses { (length point.now ≢ length x.now) → result ≡ None }
{
    weigh(Weight::Eq, point, x)
}

// select(point, x); None where the lengths differ.
pub fn select_at<F: Field>(point: &[F], x: &Point<F>) -> Option<F>
    ensures fits { length point.now ≡ length x.now → result ≡ Some (select F.Field.ops point.now x.now) }
    ensures refuses { (length point.now ≢ length x.now) → result ≡ None }
{
    weigh(Weight::Select, point, x)
}

// eq at the point that v stands for, which is not written out.
pub fn eq_univariate<F: Field>(v: F, x: &Point<F>) -> F
    ensures { result ≡ eq F.Field.ops (expand F.Field.ops v (length x.now)) x.now }
{
    weigh_univariate(Weight::Eq, v, x)
}

// select at the point that v stands for, which is not written out.
pub fn select_univariate<F: Field>(v: F, x: &Point<F>) -> F
    ensures { result ≡ select F.Field.ops (expand F.Field.ops v (length x.now)) x.now }
{
    weigh_univariate(Weight::Select, v, x)
}

// The point of as many coordinates as `out` has places that v stands for: (.., v^4, v^2, v).
pub fn expand_from_univariate<F: Field>(v: F, out: &mut [F])
    ensures { out.new ≡ expand F.Field.ops v (length out.old) }
{
    let mut power = v;
    // Kept: by an index: after a loop over `iter_mut().rev()` no element that was written is known; and a recursion by `split_last_mut`, which was
    // tried and proves, goes as deep as the slice that a caller lends is long.
    for j in (0..out.len()).rev() {
        out[j] = power;
        power = power.mul(power);
    }
}
