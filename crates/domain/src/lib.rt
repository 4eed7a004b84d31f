//! Evaluation domains: the points at which a codeword is queried.
//!
//! A domain has for each log size up to its capacity, each number of variables m up to that and each index below the size
//! one point of m base elements.
#![tactic(auto)]

ghost use Rattle.std.specs.Prelude.{◌≡◌, ℕ, ◌^◌, ◌≤◌, Bool, ◌&&◌, if◌then◌else◌, Ok, Err, nat_lt};
ghost use Rattle.domain.specs.declared.query.Limit.TheVariants.{OutOfDomain};
ghost use Rattle.domain.specs.Domains.{Domain, inside, told, coordinate, Lawful};

use configuration::whir_parameters::SecurityAssumption;
use field::{BaseField, ExtensionField, Field};
use query::{Limit, WhirQueryPoint};

pub mod listed;
pub mod query;
pub mod subgroup;
pub mod two_adic;

// A nested linear code's evaluation-point map.
pub trait WhirDomain<F: BaseField> {
    ghost meaning: { Self → Domain F };

    // Stable identifier bound into the transcript's instance label; an empty one selects the canonical two-adic transcript.
    fn protocol_id(&self) -> &'static [u8]
        ensures { result.now ≡ (meaning self.now).id };

    // Whether the domain supports the requested soundness.
    fn supports_security_assumption(&self, assumption: SecurityAssumption) -> bool
        ensures { result ≡ (meaning self.now).supports assumption };

    // Whether queries use the stratified schedule.
    fn stratified_queries(&self) -> bool
        ensures { result ≡ (meaning self.now).strata };

    // Largest supported base-two logarithm of a domain size.
    fn max_log_domain_size(&self) -> usize
        ensures capacity { result ≡ (meaning self.now).capacity }
        ensures small { result ≤ 16 };

    // Kept: the three numbers of a position are parameters of their own in the protocol's interface.
    // The point of a queried position, as one element or as coordinates that are asked one by one.
    fn query_point(
        &self,
        log_domain_size: usize,
        num_variables: usize,
        index: usize,
    ) -> Result<WhirQueryPoint<F>, Limit>
        ensures { result ≡ told (meaning self.now) log_domain_size num_variables index };

    // One coordinate of the point of a queried position.
    fn query_coordinate(
        &self,
        log_domain_size: usize,
        num_variables: usize,
        index: usize,
        j: usize,
    ) -> Result<F, Limit>
        ensures { result ≡ coordinate F.Field.ops (meaning self.now) log_domain_size num_variables index j };

    // The law that joins base, extension and domain.
    // Kept: as a ghost law it has to speak of every extension, `(B : Type 0) (G : Ops B) ..`, which the check refused: "expected type `Type 0`,
    // but this has type `Type 1`"; a trait with the extension for a parameter would ask each caller for one.
    fn keeps_distance<E: ExtensionField<F>>(&self)
        ensures { Lawful F.Field.ops E.Field.ops E.ExtensionField.extension.embed (meaning self.now) };
}

// Refuses a place at which there is no point.
pub(crate) fn require_inside(
    capacity: usize,
    log: usize,
    m: usize,
    index: usize,
) -> Result<(), Limit>
    requires { capacity ≤ 16 }
    ensures { result ≡ (if inside capacity log m index then Ok tt else Err OutOfDomain) }
{
    if log <= capacity && m <= log && index < 1 << log {
        Ok(())
    } else {
        Err(Limit::OutOfDomain)
    }
}

// Refuses a place at which there is no point, and a coordinate that its point has not.
pub(crate) fn require_coordinate(
    capacity: usize,
    log: usize,
    m: usize,
    index: usize,
    j: usize,
) -> Result<(), Limit>
    requires { capacity ≤ 16 }
    ensures { result ≡ (if inside capacity log m index && nat_lt j m then Ok tt else Err OutOfDomain) }
{
    require_inside(capacity, log, m, index)?;
    if j < m {
        Ok(())
    } else {
        Err(Limit::OutOfDomain)
    }
}
