ghost use Rattle.std.specs.Prelude.{◌≡◌, ◌≤◌, cond, Ok, Err};
ghost use Rattle.multilinear.specs.Univariate.{pow};
ghost use Rattle.domain.specs.declared.query.Limit.TheVariants.{OutOfDomain};
ghost use Rattle.domain.specs.Domains.{inside};
ghost use Rattle.domain.specs.Subgroup.{generator, subgroup};

use crate::query::{Limit, WhirQueryPoint};
use crate::two_adic::{TwoAdicField, coordinate_of, exp, generator_of};
use crate::{WhirDomain, require_coordinate, require_inside};
use configuration::whir_parameters::SecurityAssumption;
use field::{BaseField, ExtensionField, Field};

// The domain of the canonical two-adic protocol: the powers of the generator.
#[derive(Clone, Copy, Debug, PartialEq, Eq)]
pub struct SubgroupDomain;

impl<F: TwoAdicField> WhirDomain<F> for SubgroupDomain {
    ghost meaning = { λ _. subgroup F.Field.ops F.BaseField.numbering F.TwoAdicField.adicity };

    fn protocol_id(&self) -> &'static [u8] {
        b""
    }

    // Every soundness of the canonical protocol is kept.
    fn supports_security_assumption(&self, _assumption: SecurityAssumption) -> bool {
        true
    }

    fn stratified_queries(&self) -> bool {
        false
    }

    fn max_log_domain_size(&self) -> usize {
        F::two_adicity()
    }

    fn query_point(
        &self,
        log_domain_size: usize,
        num_variables: usize,
        index: usize,
    ) -> Result<WhirQueryPoint<F>, Limit> {
        require_inside(F::two_adicity(), log_domain_size, num_variables, index)?;
        Ok(WhirQueryPoint::Univariate(element(log_domain_size, index)))
    }

    fn query_coordinate(
        &self,
        log_domain_size: usize,
        num_variables: usize,
        index: usize,
        j: usize,
    ) -> Result<F, Limit> {
        require_coordinate(F::two_adicity(), log_domain_size, num_variables, index, j)?;
        Ok(coordinate_of(element(log_domain_size, index), num_variables, j))
    }

    fn keeps_distance<E: ExtensionField<F>>(&self) {}
}

// The power of the generator at an index.
fn element<F: TwoAdicField>(log: usize, index: usize) -> F
    requires { log ≤ F.TwoAdicField.adicity }
    ensures { result ≡ pow F.Field.ops (generator F.Field.ops F.BaseField.numbering F.TwoAdicField.adicity log) index }
{
    exp(generator_of(log), index)
}
