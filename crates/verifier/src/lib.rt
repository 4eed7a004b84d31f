//! The verifier's parts.
#![tactic(auto)]

ghost use Rattle.std.specs.Prelude.{◌≡◌, ◌≤◌};

pub mod checks;
pub mod claims;
pub mod openings;
pub mod parts;
pub mod phases;
pub mod points;
pub mod powers;
pub mod reader;
pub mod rows;
#[cfg(test)]
mod tests;
pub mod weights;

use commit::OpeningScheme;
use configuration::whir::WhirConfig;
use domain::WhirDomain;
use field::{BaseField, ExtensionField};
use multilinear::order::VariableOrder;
use std::marker::PhantomData;

/// The verifier-side dependencies of a replay: derived per-protocol parameters, the code and evaluation-point map used by every query, the
/// scheme that authenticates rows, and the binding direction that the prover declared at commit time.
#[derive(Drop)]
pub struct WhirVerifier<
    'a,
    F: BaseField,
    E: ExtensionField<F>,
    D: WhirDomain<F>,
    O: OpeningScheme<F>,
> {
    pub(crate) config: &'a WhirConfig,
    pub(crate) domain: &'a D,
    pub(crate) scheme: &'a O,
    pub(crate) variable_order: VariableOrder,
    pub(crate) base: PhantomData<F>,
    pub(crate) extension: PhantomData<E>,
    // the domain is as large as the configuration's capacity
    ghost large: { config.now.numbers.max_log_domain_size ≤ (D.WhirDomain.meaning domain.now).capacity },
}
