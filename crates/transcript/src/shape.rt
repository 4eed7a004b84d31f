// The numbers that fix the transcript of a run, in lists of their own.
ghost use Rattle.std.specs.Prelude.{◌≡◌, ◌≤◌, map, length, Some, IfOk, unwrap_or, ◌≢◌};
ghost use Rattle.std.specs.List.{slice_get};
ghost use Rattle.sponge.specs.Play.{counted};
ghost use Rattle.parameters.specs.Replies.{strategy_of};
ghost use Rattle.configuration.specs.Numbers.{numbers_of};
ghost use Rattle.transcript.specs.Depths.{depths};
ghost use Rattle.transcript.specs.Shape.{shape, round_shape};

use crate::depths::query_summand_depths;
use crate::sites::{factor_of, final_poly_len, query_site};
use configuration::whir::WhirConfig;
use configuration::whir_parameters::{RoundConfig, SecurityAssumption};
use parameters::folding::FoldingFactor;
use std::alloc::{AllocError, Global};
use std::fmt;

// Numbers that fix one sumcheck phase.
#[derive(Clone, Copy, PartialEq, Eq, Debug)]
pub struct SumcheckShape {
    // Number of rounds this phase runs.
    pub rounds: usize,

    // Grinding difficulty inside each round.
    pub pow_bits: usize,
}

// Numbers that fix one intermediate WHIR round.
#[derive(Drop, PartialEq, Eq, Debug)]
pub struct WhirRoundShape {
    // Out-of-domain samples drawn against the new commitment.
    pub ood_samples: usize,

    // Grinding difficulty guarding this round's query indices.
    pub query_pow_bits: usize,

    // Number of query indices drawn; none where every position opens.
    pub query_draws: Option<usize>,

    // Bit width of each query index.
    pub index_bits: usize,

    // Binary decomposition of the query count as stratum depths.
    pub query_summand_depths: Vec<usize>,

    // Whether the draws are allocated one per protocol-fixed stratum.
    pub stratified_queries: bool,

    // Sumcheck phase folding the polynomial for the next round.
    pub sumcheck: SumcheckShape,

    // Log-inverse rate of the codeword committed by this round.
    pub log_inv_rate: usize,
    ghost summands: { query_summand_depths.items ≡ depths (unwrap_or query_draws 0) },
    ghost some: { query_draws ≢ Some 0 },
}

// Numbers that fix the transcript of one WHIR run, built from a configuration and never from a proof.
#[derive(Drop, PartialEq, Eq, Debug)]
pub struct WhirShape {
    // Variable count of the committed multilinear polynomial.
    pub num_variables: usize,

    // Out-of-domain samples the commitment phase draws.
    pub commitment_ood_samples: usize,

    // Opening claims the run batches into its first sum.
    pub num_opening_claims: usize,

    // Base-field width of one row of the matrix the initial commitment covers.
    pub commitment_row_width: usize,

    // Sumcheck phase folding the polynomial before the first round.
    pub initial_sumcheck: SumcheckShape,

    // One entry per intermediate round, in round order.
    pub rounds: Vec<WhirRoundShape>,

    // Coefficient count of the final polynomial, sent in the clear.
    pub final_poly_len: usize,

    // Grinding difficulty guarding the final query indices.
    pub final_pow_bits: usize,

    // Number of final query indices drawn; none where every position opens.
    pub final_query_draws: Option<usize>,

    // Bit width of each final query index.
    pub final_index_bits: usize,

    // Binary decomposition of the final query count as stratum depths.
    pub final_query_summand_depths: Vec<usize>,

    // Whether final queries are allocated to protocol-fixed strata.
    pub stratified_queries: bool,

    // Sumcheck phase closing the run.
    pub final_sumcheck: SumcheckShape,

    // Security level the parameters were derived against, in bits.
    pub security_level: usize,

    // Grinding budget the derived difficulties were capped by.
    pub pow_budget: usize,

    // Log-inverse rate of the first committed codeword.
    pub starting_log_inv_rate: usize,

    // Proximity-gap assumption the query counts were derived under.
    pub soundness_type: SecurityAssumption,

    // Folding strategy the schedule was derived from.
    pub folding_factor: FoldingFactor,

    // Stable identity of the evaluation code and selector map.
    pub domain_id: Vec<u8>,
    ghost summands: { final_query_summand_depths.items ≡ depths (unwrap_or final_query_draws 0) },
    ghost some: { final_query_draws ≢ Some 0 },
    ghost named: { length domain_id.items ≤ 32 },
}

impl WhirRoundShape {
    ghost use Rattle.transcript.specs.Owned.{round_of};

    // The shapes of all rounds.
    #[tactic(auto, using(crate::proofs::Owning::mapped_push))]
    fn all(heap: Global, config: &WhirConfig) -> Result<Vec<WhirRoundShape>, AllocError>
        ensures { IfOk result (λ rs. map round_of rs.items ≡ map (round_shape (numbers_of config.now.numbers)) (counted 0 (length config.now.numbers.round_parameters.items))) }
    {
        let mut shapes = Vec::new(heap);
        for (index, round) in config.numbers.round_parameters.iter().enumerate() {
            shapes.push(WhirRoundShape::new(heap, config, index, round)?)?;
        }
        Ok(shapes)
    }

    // The shape of a round of a configuration.
    fn new(
        heap: Global,
        config: &WhirConfig,
        index: usize,
        round: &RoundConfig,
    ) -> Result<WhirRoundShape, AllocError>
        requires { slice_get config.now.numbers.round_parameters.items index ≡ Some round.now }
        ensures { IfOk result (λ r. round_of r ≡ round_shape (numbers_of config.now.numbers) index) }
    {
        let site = query_site(config, index);
        Ok(WhirRoundShape {
            ood_samples: round.ood_samples,
            query_pow_bits: site.pow_bits,
            query_draws: site.draws,
            index_bits: site.index_bits,
            query_summand_depths: query_summand_depths(heap, site.draws.unwrap_or(0))?,
            stratified_queries: config.numbers.stratified_queries,
            sumcheck: SumcheckShape {
                rounds: factor_of(config, index + 1),
                pow_bits: round.folding_pow_bits,
            },
            log_inv_rate: round.log_inv_rate,
        })
    }
}

// A strategy in memory of its own.
fn copied(heap: Global, factor: &FoldingFactor) -> Result<FoldingFactor, AllocError>
    ensures { IfOk result (λ f. strategy_of f ≡ strategy_of factor.now) }
{
    Ok(match factor {
        FoldingFactor::Constant(f) => FoldingFactor::Constant(*f),
        FoldingFactor::ConstantFromSecondRound(first, rest) => {
            FoldingFactor::ConstantFromSecondRound(*first, *rest)
        }
        FoldingFactor::PerRound(factors) => {
            FoldingFactor::PerRound(Vec::from_slice(heap, factors.as_slice())?)
        }
    })
}

impl WhirShape {
    ghost use Rattle.transcript.specs.Owned.{shape_of};

    // Derive the shape of one WHIR run from its configuration.
    #[tactic(auto, using(crate::proofs::Siting::id_short, crate::proofs::Siting::shifted))]
    pub fn new(
        heap: Global,
        config: &WhirConfig,
        num_opening_claims: usize,
    ) -> Result<WhirShape, AllocError>
        ensures { IfOk result (λ s. shape_of s ≡ shape (numbers_of config.now.numbers) num_opening_claims) }
    {
        let numbers = &config.numbers;
        let site = query_site(config, config.n_rounds());
        let first_factor = factor_of(config, 0);
        Ok(WhirShape {
            num_variables: numbers.num_variables,
            commitment_ood_samples: numbers.commitment_ood_samples,
            num_opening_claims,
            // The initial commitment lays the first fold's cosets out along one row.
            commitment_row_width: 1 << first_factor,
            initial_sumcheck: SumcheckShape {
                rounds: first_factor,
                pow_bits: numbers.starting_folding_pow_bits,
            },
            rounds: WhirRoundShape::all(heap, config)?,
            final_poly_len: final_poly_len(config),
            final_pow_bits: site.pow_bits,
            final_query_draws: site.draws,
            final_index_bits: site.index_bits,
            final_query_summand_depths: query_summand_depths(heap, site.draws.unwrap_or(0))?,
            stratified_queries: numbers.stratified_queries,
            final_sumcheck: SumcheckShape {
                rounds: numbers.final_sumcheck_rounds,
                pow_bits: numbers.final_folding_pow_bits,
            },
            security_level: numbers.security_level,
            pow_budget: numbers.pow_budget,
            starting_log_inv_rate: numbers.starting_log_inv_rate,
            soundness_type: config.soundness_type(),
            folding_factor: copied(heap, &numbers.folding_factor)?,
            domain_id: Vec::from_slice(heap, numbers.domain_id.as_slice())?,
        })
    }

    // Number of intermediate rounds this shape runs.
    pub fn n_rounds(&self) -> usize
        ensures { result ≡ length self.now.rounds.items }
    {
        self.rounds.len()
    }
}

// A list as it is written: its length, then its items.
#[derive(Clone, Copy)]
struct Listed<'a>(&'a [usize]);

impl fmt::Display for Listed<'_> {
    fn fmt<W: fmt::Write>(&self, f: &mut fmt::Formatter<W>) -> fmt::Result {
        write!(f, "{}", self.0.len())?;
        for item in self.0 {
            write!(f, " {item}")?;
        }
        Ok(())
    }
}

// Rounds and difficulty, with a blank between.
impl fmt::Display for SumcheckShape {
    fn fmt<W: fmt::Write>(&self, f: &mut fmt::Formatter<W>) -> fmt::Result {
        write!(f, "{} {}", self.rounds, self.pow_bits)
    }
}

// The numbers of a round but for its depths; 0 draws where every position opens.
impl fmt::Display for WhirRoundShape {
    fn fmt<W: fmt::Write>(&self, f: &mut fmt::Formatter<W>) -> fmt::Result {
        write!(
            f,
            "{} {} {} {} {} {} {}",
            self.ood_samples,
            self.query_pow_bits,
            self.query_draws.unwrap_or(0),
            self.index_bits,
            u8::from(self.stratified_queries),
            self.sumcheck,
            self.log_inv_rate
        )
    }
}

// A line for the run's numbers, one for those that the steps do not show, one for the final depths, and two for each round.
impl fmt::Display for WhirShape {
    fn fmt<W: fmt::Write>(&self, f: &mut fmt::Formatter<W>) -> fmt::Result {
        write!(
            f,
            "shape_numbers {} {} {} {} {}",
            self.num_variables,
            self.commitment_ood_samples,
            self.num_opening_claims,
            self.commitment_row_width,
            self.initial_sumcheck
        )?;
        writeln!(
            f,
            " {} {} {} {} {} {} {} {}",
            self.final_poly_len,
            self.final_pow_bits,
            self.final_query_draws.unwrap_or(0),
            self.final_index_bits,
            u8::from(self.stratified_queries),
            self.final_sumcheck,
            self.security_level,
            self.pow_budget
        )?;
        let soundness = self.soundness_type as usize;
        writeln!(f, "shape_more {} {soundness}", self.starting_log_inv_rate)?;
        writeln!(
            f,
            "final_depths {}",
            Listed(&self.final_query_summand_depths)
        )?;
        write!(f, "shape_rounds {}", self.n_rounds())?;
        for (i, round) in self.rounds.iter().enumerate() {
            let depths = Listed(&round.query_summand_depths);
            write!(f, "\nshape_round {i} {round}\nround_depths {i} {depths}")?;
        }
        Ok(())
    }
}
