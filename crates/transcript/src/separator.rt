// The separator of a run, as a list of the pieces that are observed.
ghost use Rattle.std.specs.Prelude.{◌≡◌, ◌≤◌, ◌++◌, [], ◌∷◌, map, length, IfOk, Ok};
ghost use Rattle.std.specs.List.{flat_map};
ghost use Rattle.parameters.specs.Replies.{strategy_of};
ghost use Rattle.sponge.specs.Plays.{Plays};
ghost use Rattle.configuration.specs.Numbers.{numbers_of};
ghost use Rattle.configuration.specs.Views.{kind_number};
ghost use Rattle.transcript.specs.Bytes.{eight};
ghost use Rattle.transcript.specs.Steps.{step_bytes, step_of};
ghost use Rattle.transcript.specs.Pattern.{pattern};
ghost use Rattle.transcript.specs.Instances.{instance_bytes, instances, domain_instances, strategy_numbers, sumcheck_numbers, round_numbers};
ghost use Rattle.transcript.specs.Opening.{pieces, separator, observe_all};
ghost use Rattle.transcript.specs.Owned.{piece_bytes, sumcheck_of, shape_of, Binds};

use crate::pattern::InteractionPattern;
use crate::piece::Piece;
use crate::shape::{SumcheckShape, WhirShape};
use configuration::whir::WhirConfig;
use configuration::whir_parameters::SecurityAssumption;
use parameters::folding::FoldingFactor;
use sponge::Sponge;
use std::alloc::{AllocError, Global};
use std::fmt;

// Version byte bound into the transcript seed.
const VERSION: u8 = 3;

// Protocol name bound into the transcript seed.
const NAME: &[u8] = b"p3-whir";

// The pieces of a separator, in the order in which they are observed, each by a call of its own.
#[derive(Drop, PartialEq, Eq, Debug)]
pub struct DomainSeparator {
    pub pieces: Vec<Piece>,
}

impl DomainSeparator {
    // The separator of a run: what opening it observes.
    pub fn of_run(
        heap: Global,
        config: &WhirConfig,
        degree: usize,
        num_opening_claims: usize,
    ) -> Result<DomainSeparator, AllocError>
        ensures { IfOk result (λ s. map piece_bytes s.pieces.items ≡ separator (numbers_of config.now.numbers) degree num_opening_claims) }
    {
        let shape = WhirShape::new(heap, config, num_opening_claims)?;
        shape.domain_separator(heap, degree)
    }

    // The version, the name and the steps.
    #[tactic(auto, using(crate::proofs::Owning::step_bound, crate::proofs::Owning::begun))]
    fn new(heap: Global, pattern: &InteractionPattern) -> Result<DomainSeparator, AllocError>
        ensures { IfOk result (λ s. map piece_bytes s.pieces.items ≡ pieces (map step_of pattern.now.interactions.items) []) }
    {
        let mut pieces = Vec::new(heap);
        pieces.push(Piece::of(&[VERSION]))?;
        pieces.push(Piece::of(NAME))?;
        for step in &pattern.interactions {
            pieces.push(step.encode())?;
        }
        Ok(DomainSeparator { pieces })
    }

    // Observes the pieces, each by a call of its own.
    #[tactic(auto, using(crate::proofs::Owning::piece_taken, crate::proofs::Taking::all_taken), unfolding(crate::specs::Opening::taken))]
    pub fn observe<S: Sponge>(&self, sponge: &mut S)
        ensures { Plays S.Sponge.rules (S.Sponge.held sponge.old) (observe_all (map piece_bytes self.now.pieces.items)) (Ok tt) (S.Sponge.held sponge.new) }
    {
        for piece in &self.pieces {
            sponge.observe(piece.as_slice());
        }
    }

    // Append an instance.
    #[tactic(auto, using(crate::proofs::Owning::binds_one))]
    fn instance(&mut self, bytes: &[u8]) -> Result<(), AllocError>
        requires { length bytes.now ≤ 32 }
        ensures { IfOk result (λ _. Binds self.old.pieces.items self.new.pieces.items (bytes.now ∷ [])) }
    {
        Ok(self.pieces.push(Piece::instance(bytes))?)
    }

    // Append numbers, each as eight big-endian bytes.
    #[tactic(auto, using(crate::proofs::Owning::number_bound, crate::proofs::Writing::eight_bytes))]
    fn push_numbers(&mut self, numbers: &[usize]) -> Result<(), AllocError>
        ensures { IfOk result (λ _. Binds self.old.pieces.items self.new.pieces.items (map eight numbers.now)) }
    {
        for number in numbers {
            self.instance(&number.to_be_bytes())?;
        }
        Ok(())
    }

    // Bind the folding strategy: its variant, then the numbers it carries.
    #[tactic(auto, using(crate::proofs::Owning::binds_on))]
    fn bind_folding_factor(&mut self, factor: &FoldingFactor) -> Result<(), AllocError>
        ensures { IfOk result (λ _. Binds self.old.pieces.items self.new.pieces.items (map eight (strategy_numbers (strategy_of factor.now)))) }
    {
        match factor {
            FoldingFactor::Constant(f) => self.push_numbers(&[0, *f]),
            FoldingFactor::ConstantFromSecondRound(first, rest) => {
                self.push_numbers(&[1, *first, *rest])
            }
            FoldingFactor::PerRound(factors) => {
                self.push_numbers(&[2, factors.len()])?;
                self.push_numbers(factors.as_slice())
            }
        }
    }

    // The domain's name and whether its queries are stratified, if it has a name.
    #[tactic(auto, using(crate::proofs::Owning::binds_on))]
    fn bind_domain(&mut self, id: &[u8], stratified: bool) -> Result<(), AllocError>
        requires { length id.now ≤ 32 }
        ensures { IfOk result (λ _. Binds self.old.pieces.items self.new.pieces.items (domain_instances id.now stratified)) }
    {
        if !id.is_empty() {
            self.instance(id)?;
            self.instance(&[u8::from(stratified)])?;
        }
        Ok(())
    }
}

// The number of a soundness guarantee.
fn number_of(kind: SecurityAssumption) -> usize
    ensures { result ≡ kind_number kind }
{
    kind as usize
}

impl SumcheckShape {
    // Append this phase's numbers to the instances.
    fn bind(&self, separator: &mut DomainSeparator) -> Result<(), AllocError>
        ensures { IfOk result (λ _. Binds separator.old.pieces.items separator.new.pieces.items (map eight (sumcheck_numbers (sumcheck_of self.now)))) }
    {
        separator.push_numbers(&[self.rounds, self.pow_bits])
    }
}

impl WhirShape {
    // Each round commits at its own rate, and its sumcheck has its own numbers.
    #[tactic(auto, using(crate::proofs::Owning::binds_on))]
    fn bind_rounds(&self, separator: &mut DomainSeparator) -> Result<(), AllocError>
        ensures { IfOk result (λ _. Binds separator.old.pieces.items separator.new.pieces.items (map eight (flat_map round_numbers (shape_of self.now).rounds))) }
    {
        for round in &self.rounds {
            separator.push_numbers(&[round.log_inv_rate])?;
            round.sumcheck.bind(separator)?;
        }
        Ok(())
    }

    // Bind the protocol identity, this shape, and the remaining parameters.
    #[tactic(auto, using(crate::proofs::Owning::separated))]
    pub fn domain_separator(
        &self,
        heap: Global,
        degree: usize,
    ) -> Result<DomainSeparator, AllocError>
        ensures { IfOk result (λ s. map piece_bytes s.pieces.items ≡ pieces (pattern degree (shape_of self.now)) (instances (shape_of self.now))) }
    {
        let pattern = self.pattern(heap, degree)?;
        let mut separator = DomainSeparator::new(heap, &pattern)?;
        separator.push_numbers(&[
            self.num_variables,
            self.commitment_ood_samples,
            self.num_opening_claims,
            self.commitment_row_width,
            self.security_level,
            self.pow_budget,
            self.starting_log_inv_rate,
            number_of(self.soundness_type),
        ])?;
        separator.bind_domain(self.domain_id.as_slice(), self.stratified_queries)?;
        separator.bind_folding_factor(&self.folding_factor)?;
        self.initial_sumcheck.bind(&mut separator)?;
        self.final_sumcheck.bind(&mut separator)?;
        separator.push_numbers(&[self.rounds.len()])?;
        self.bind_rounds(&mut separator)?;
        Ok(separator)
    }
}

// A line with the number of pieces, and one for each, in lower-case hex.
impl fmt::Display for DomainSeparator {
    fn fmt<W: fmt::Write>(&self, f: &mut fmt::Formatter<W>) -> fmt::Result {
        write!(f, "pieces {}", self.pieces.len())?;
        for piece in &self.pieces {
            write!(f, "\npiece ")?;
            for byte in piece.as_slice() {
                write!(f, "{byte:02x}")?;
            }
        }
        Ok(())
    }
}
