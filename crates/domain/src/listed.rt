ghost use Rattle.std.specs.Prelude.{◌≡◌, ℕ, ◌^◌, ◌<◌, ◌≤◌, T, length, MatchOption, MatchResult, ◌≢◌, slice_index_or};
ghost use Rattle.std.specs.List.{AllByRecursion};
ghost use Rattle.ring.specs.Polynomials.{Distinct};
ghost use Rattle.domain.specs.declared.query.Limit.TheVariants.{BadList};
ghost use Rattle.domain.specs.Listed.{Listable, listed};

use crate::query::{Limit, WhirQueryPoint};
use crate::two_adic::coordinate_of;
use crate::{WhirDomain, require_coordinate, require_inside};
use configuration::whir_parameters::SecurityAssumption;
use field::{BaseField, ExtensionField, Field};

// A domain of lent elements, of which a log size uses the first.
#[derive(Drop)]
pub struct ListedDomain<'a, F> {
    points: &'a [F],
    log: usize,
    ghost small: { log ≤ 12 },
    ghost size: { length points.now ≡ 2 ^ log },
    ghost distinct: { ∥ Distinct points.now ∥₁ },
}

impl<'a, F: BaseField> ListedDomain<'a, F> {
    // Takes 2^log distinct elements, log at most 12, and refuses any other list.
    pub fn new(points: &'a [F]) -> Result<ListedDomain<'a, F>, Limit>
        ensures { MatchResult result (λ d. (d.points.now ≡ points.now) × Listable d.log points.now) (λ e. (e ≡ BadList) × ((c : ℕ) → Listable c points.now → ⊥)) }
    {
        let log = log_of_length(points.len()).ok_or(Limit::BadList)?;
        if !are_distinct(points) {
            return Err(Limit::BadList);
        }
        Ok(ListedDomain { points, log })
    }

    // Kept: with the place read in `query_coordinate` itself it stays open that the element's offset in bytes fits a word.
    fn element(&self, index: usize) -> F
        requires { index < length self.now.points.now }
        ensures { result ≡ slice_index_or self.now.points.now index F.Field.ops.zero }
    {
        self.points[index]
    }
}

impl<'a, F: BaseField> WhirDomain<F> for ListedDomain<'a, F> {
    ghost meaning = { λ d. listed F.Field.ops d.log d.points.now };

    fn protocol_id(&self) -> &'static [u8] {
        b"list"
    }

    fn supports_security_assumption(&self, assumption: SecurityAssumption) -> bool {
        match assumption {
            SecurityAssumption::UniqueDecoding => true,
            SecurityAssumption::JohnsonBound => true,
            SecurityAssumption::CapacityBound => false,
        }
    }

    fn stratified_queries(&self) -> bool {
        true
    }

    fn max_log_domain_size(&self) -> usize {
        self.log
    }

    fn query_point(
        &self,
        log_domain_size: usize,
        num_variables: usize,
        index: usize,
    ) -> Result<WhirQueryPoint<F>, Limit> {
        require_inside(self.log, log_domain_size, num_variables, index)?;
        Ok(WhirQueryPoint::Multilinear)
    }

    fn query_coordinate(
        &self,
        log_domain_size: usize,
        num_variables: usize,
        index: usize,
        j: usize,
    ) -> Result<F, Limit> {
        require_coordinate(self.log, log_domain_size, num_variables, index, j)?;
        Ok(coordinate_of(self.element(index), num_variables, j))
    }

    fn keeps_distance<E: ExtensionField<F>>(&self) {}
}

// A list has at most 2^12 elements.
const MAX_LOG: usize = 12;

// The logarithm of a length that is a power of two up to 4,096.
fn log_of_length(count: usize) -> Option<usize>
    ensures { MatchOption result ((c : ℕ) → c ≤ 12 → count ≢ 2 ^ c) (λ c. (c ≤ 12) × (count ≡ 2 ^ c)) }
{
    let log = count.checked_ilog2()? as usize;
    (log <= MAX_LOG && count == 1 << log).then_some(log)
}

fn are_distinct<F: Field>(points: &[F]) -> bool
    ensures yes { T result → Distinct points.now }
    ensures no { Distinct points.now → T result }
{
    let mut rest = points;
    while let [x, others @ ..] = rest {
        if others.contains(x) {
            return false;
        }
        rest = others;
    }
    true
}
