ghost use Rattle.std.specs.Prelude.{◌≡◌, ℕ, ◌/◌, ◌^◌, ◌<◌, ◌≤◌, length, take, drop, Some, None, MatchOption, ◌≢◌};
ghost use Rattle.multilinear.specs.Tables.{value, position};
ghost use Rattle.multilinear.specs.Weights.{factor_of, weighted};
ghost use Rattle.multilinear.specs.Scratch.{bound, spent};

use crate::order::VariableOrder;
use crate::point::Point;
use crate::weight::Weight;
use field::Field;

// 2^variables, where there is room for so many values.
fn table_size(variables: usize, room: usize) -> Option<usize>
    ensures { MatchOption result (room < 2 ^ variables) (λ size. (size ≡ 2 ^ variables) × (size ≤ room)) }
{
    let exponent = u32::try_from(variables).ok()?;
    2usize.checked_pow(exponent).filter(|size| *size <= room)
}

// The line through `low` at 0 and `high` at 1, at r.
fn mix<F: Field>(r: F, low: F, high: F) -> F
    ensures { result ≡ F.Field.ops.add low (F.Field.ops.mul r (F.Field.ops.sub high low)) }
{
    low.add(r.mul(high.sub(low)))
}

// Binds the first variable of a table at r: the front half takes what is left.
fn bind_first<F: Field>(table: &mut [F], r: F)
    ensures { table.new ≡ bound F.Field.ops r (length table.old / 2) table.old }
{
    let half = table.len() / 2;
    let (front, back) = table.split_at_mut(half);
    // Kept: by an index at the upper half: after a loop over a zip of `iter_mut` no element that was written is known.
    for (i, low) in front.iter_mut().enumerate() {
        *low = mix(r, *low, back[i]);
    }
}

// Binds all variables of a table, one after another, at the coordinates of a point: its value there.
fn bind_all<F: Field>(table: &mut [F], point: &Point<F>) -> F
    requires { length table.old ≡ 2 ^ length point.now }
    ensures value { result ≡ value F.Field.ops table.old point.now }
    ensures leaves { table.new ≡ spent F.Field.ops point.now table.old }
{
    let Some((r, rest)) = point.split_first() else {
        return table[0];
    };
    bind_first(table, r);
    let half = table.len() / 2;
    bind_all(&mut table[..half], &rest)
}

// The value at a point of the table in the front of `scratch`, which is folded in place.
// None, and nothing touched, where `scratch` is too short for a table of so many variables.
pub fn evaluate<F: Field>(scratch: &mut [F], point: &Point<F>) -> Option<F>
    ensures fits { 2 ^ length point.now ≤ length scratch.old → result ≡ Some (value F.Field.ops (take (2 ^ length point.now) scratch.old) point.now) }
    ensures leaves { 2 ^ length point.now ≤ length scratch.old → scratch.new ≡ spent F.Field.ops point.now scratch.old }
    ensures refuses { length scratch.old < 2 ^ length point.now → (result ≡ None) × (scratch.new ≡ scratch.old) }
{
    let size = table_size(point.len(), scratch.len())?;
    Some(bind_all(&mut scratch[..size], point))
}

// The table under a weight at a point, by its halves: no buffer, and linear in the table's size.
//
// Kept: here and in `bind_all` a table and a point go beside one another, of as many values as the point has corners: a struct of both would be made
// anew for each half, and hold the table here by `&` and there by `&mut`; the public calls test the lengths themselves.
fn by_halves<F: Field>(weight: Weight, table: &[F], point: &Point<F>) -> F
    requires { length table.now ≡ 2 ^ length point.now }
    ensures { result ≡ weighted F.Field.ops (factor_of F.Field.ops weight) table.now point.now }
{
    let Some((p, rest)) = point.split_first() else {
        return table[0];
    };
    let (front, back) = table.split_at(table.len() / 2);
    let low = by_halves(weight, front, &rest);
    let high = by_halves(weight, back, &rest);
    weight
        .factor(p, F::zero())
        .mul(low)
        .add(weight.factor(p, F::one()).mul(high))
}

// The table under a weight, where it has a value for each corner.
fn weigh_table<F: Field>(weight: Weight, table: &[F], point: &Point<F>) -> Option<F>
    ensures fits { length table.now ≡ 2 ^ length point.now → result ≡ Some (weighted F.Field.ops (factor_of F.Field.ops weight) table.now point.now) }
    ensures refuses { (length table.now ≢ 2 ^ length point.now) → result ≡ None }
{
    if table_size(point.len(), table.len())? != table.len() {
        return None;
    }
    Some(by_halves(weight, table, point))
}

// The table's value at a point, read in place; None where the table has not a value for each corner.
// Kept: value and position are the names of a table under the two weights, one call each; the generic function stays private.
#[tactic(auto, unfolding(crate::specs::Tables::value, crate::specs::Weights::weighted))]
pub fn value_at<F: Field>(table: &[F], point: &Point<F>) -> Option<F>
    ensures fits { length table.now ≡ 2 ^ length point.now → result ≡ Some (value F.Field.ops table.now point.now) }
    ensures refuses { (length table.now ≢ 2 ^ length point.now) → result ≡ None }
{
    weigh_table(Weight::Eq, table, point)
}

// The table's value at the position of a point, read in place; None where the table has not a value for each corner.
#[tactic(auto, unfolding(crate::specs::Tables::orient, crate::specs::Tables::position, crate::specs::Weights::weighted))]
pub fn position_at<F: Field>(table: &[F], point: &[F]) -> Option<F>
    ensures fits { length table.now ≡ 2 ^ length point.now → result ≡ Some (position F.Field.ops table.now point.now) }
    ensures refuses { (length table.now ≢ 2 ^ length point.now) → result ≡ None }
{
    let point = Point::new(point, VariableOrder::Prefix);
    weigh_table(Weight::Select, table, &point)
}
