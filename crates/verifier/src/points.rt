// The points of a domain's positions: their weight at the draws, and a table's value at them.
ghost use Rattle.std.specs.Prelude.{◌≡◌, ◌-◌, ◌^◌, ◌<◌, ◌≤◌, map, length, drop, true, slice_index_or};
ghost use Rattle.multilinear.specs.Tables.{select, position};
ghost use Rattle.domain.specs.Domains.{inside};

use domain::WhirDomain;
use domain::query::WhirQueryPoint;
use field::{BaseField, ExtensionField, Field};
use multilinear::point::Point;
use multilinear::powers::combine;
use multilinear::weight::select_univariate;

// A position of a phase: among 2 to the power of `log`, of a table of `vars` variables.
#[derive(Clone, Copy, PartialEq, Eq, Debug)]
pub(crate) struct Position {
    pub(crate) log: usize,
    pub(crate) vars: usize,
    pub(crate) index: usize,
}

impl Position {
    // A coordinate of the position's point, in the extension.
    fn coordinate<F: BaseField, E: ExtensionField<F>, D: WhirDomain<F>>(
        self,
        domain: &D,
        j: usize,
    ) -> E
        requires inside { inside (D.WhirDomain.meaning domain.now).capacity self.log self.vars self.index ≡ true }
        requires below { j < self.vars }
        ensures { result ≡ E.ExtensionField.extension.embed (slice_index_or ((D.WhirDomain.meaning domain.now).point self.log self.vars self.index) j F.Field.ops.zero) }
    {
        let coordinate = domain.query_coordinate(self.log, self.vars, self.index, j);
        E::embed(coordinate.unwrap_or(F::zero()))
    }

    // select at the position's point, asked one coordinate after another, and the point x.
    fn select_by_coordinates<F: BaseField, E: ExtensionField<F>, D: WhirDomain<F>>(
        self,
        domain: &D,
        x: &Point<E>,
    ) -> E
        requires inside { inside (D.WhirDomain.meaning domain.now).capacity self.log self.vars self.index ≡ true }
        requires sized { length ((D.WhirDomain.meaning domain.now).point self.log self.vars self.index) ≡ self.vars }
        requires long { length x.now ≡ self.vars }
        ensures { result ≡ select E.Field.ops (map E.ExtensionField.extension.embed ((D.WhirDomain.meaning domain.now).point self.log self.vars self.index)) x.now }
    {
        let mut product = E::one();
        for (j, x_j) in x.iter().enumerate() {
            let p_j = self.coordinate::<F, E, D>(domain, j);
            product = product.mul(E::one().sub(x_j).add(x_j.mul(p_j)));
        }
        product
    }

    // The weight of the position's constraint: select at its point and the point x.
    pub(crate) fn weight<F: BaseField, E: ExtensionField<F>, D: WhirDomain<F>>(
        self,
        domain: &D,
        x: &Point<E>,
    ) -> E
        requires inside { inside (D.WhirDomain.meaning domain.now).capacity self.log self.vars self.index ≡ true }
        requires long { length x.now ≡ self.vars }
        ensures { result ≡ select E.Field.ops (map E.ExtensionField.extension.embed ((D.WhirDomain.meaning domain.now).point self.log self.vars self.index)) x.now }
    {
        domain.keeps_distance::<E>();
        match domain.query_point(self.log, self.vars, self.index) {
            Ok(WhirQueryPoint::Univariate(v)) => select_univariate(E::embed(v), x),
            _ => self.select_by_coordinates::<F, E, D>(domain, x),
        }
    }

    // The value of the lower or upper part of a table, from coordinate j on.
    fn value_by_halves<F: BaseField, E: ExtensionField<F>, D: WhirDomain<F>>(
        self,
        domain: &D,
        j: usize,
        table: &[E],
    ) -> E
        requires inside { inside (D.WhirDomain.meaning domain.now).capacity self.log self.vars self.index ≡ true }
        requires sized { length ((D.WhirDomain.meaning domain.now).point self.log self.vars self.index) ≡ self.vars }
        requires left { j ≤ self.vars }
        requires long { length table.now ≡ 2 ^ (self.vars - j) }
        ensures { result ≡ position E.Field.ops table.now (drop j (map E.ExtensionField.extension.embed ((D.WhirDomain.meaning domain.now).point self.log self.vars self.index))) }
    {
        if j == self.vars {
            return table[0];
        }
        let (low, high) = table.split_at(table.len() / 2);
        let p_j = self.coordinate::<F, E, D>(domain, j);
        let below = self.value_by_halves::<F, E, D>(domain, j + 1, low);
        let above = self.value_by_halves::<F, E, D>(domain, j + 1, high);
        below.add(p_j.mul(above))
    }

    // A table's value at the position.
    pub(crate) fn value<F: BaseField, E: ExtensionField<F>, D: WhirDomain<F>>(
        self,
        domain: &D,
        table: &[E],
    ) -> E
        requires inside { inside (D.WhirDomain.meaning domain.now).capacity self.log self.vars self.index ≡ true }
        requires long { length table.now ≡ 2 ^ self.vars }
        ensures { result ≡ position E.Field.ops table.now (map E.ExtensionField.extension.embed ((D.WhirDomain.meaning domain.now).point self.log self.vars self.index)) }
    {
        domain.keeps_distance::<E>();
        match domain.query_point(self.log, self.vars, self.index) {
            Ok(WhirQueryPoint::Univariate(v)) => combine(table, E::embed(v)),
            _ => self.value_by_halves::<F, E, D>(domain, 0, table),
        }
    }
}
