// Folding factor strategies for variable reduction across WHIR rounds.
ghost use Rattle.std.specs.Prelude.{◌≡◌, ◌-◌, ◌<◌, ◌≤◌, IfOk, sum};
ghost use Rattle.parameters.specs.Schedule.{schedule, walk, by_factors, listed, unless_faulty, Lawful, SchedulesLawful, SampleSchedules};
ghost use Rattle.parameters.specs.Replies.{strategy_of, factor_at, said, Answers, Tells, Counts, Finds, Passes};

use crate::errors::{FoldingFactorError, ScheduleError};
use std::alloc::{AllocError, Global};

// Each WHIR step folds the polynomial, reducing the number of variables.
// Once the number of variables drops to this threshold or below,
// the prover sends the polynomial coefficients directly.
const MAX_NUM_VARIABLES_TO_SEND_COEFFS: usize = 6;

// Defines the folding factor for polynomial commitments.
#[derive(Drop, PartialEq, Eq, Debug)]
pub enum FoldingFactor {
    // A fixed folding factor used in all rounds.
    Constant(usize),

    // Uses a different folding factor for the first round and a fixed one for the rest.
    ConstantFromSecondRound(usize, usize),

    // Explicit folding factors for each pre-direct-send folding phase, including the initial fold.
    PerRound(Vec<usize>),
}

impl FoldingFactor {
    ghost use Rattle.parameters.specs.Plans.{planned_factors};

    // Retrieves the nominal configured folding factor for a given round; none past the end of a list.
    //
    // This does not apply the partial-final-fold clamp used by constant schedules.
    pub fn at_round(&self, round: usize) -> Option<usize>
        ensures { result ≡ factor_at (strategy_of self.now) round }
    {
        match self {
            FoldingFactor::ConstantFromSecondRound(first_round_factor, _) if round == 0 => {
                Some(*first_round_factor)
            }
            FoldingFactor::Constant(factor) | FoldingFactor::ConstantFromSecondRound(_, factor) =>
                Some(*factor),
            FoldingFactor::PerRound(factors) => factors.get(round).copied(),
        }
    }

    // Checks the validity of the folding factor against the number of variables.
    pub fn check_validity(&self, num_variables: usize) -> Result<(), FoldingFactorError>
        ensures { Tells result (schedule 6 (strategy_of self.now) num_variables) }
    {
        self.plan(Reduction::to_direct_send(num_variables))?;
        Ok(())
    }

    // Derive the concrete folding factors used before the final direct-send phase.
    //
    // Constant schedules may use a smaller final fold when fewer than `factor`
    // variables remain. Explicit per-round schedules stay exact and therefore
    // still reject any factor larger than the current remainder.
    pub fn compute_folding_schedule(
        &self,
        heap: Global,
        num_variables: usize,
    ) -> Result<Vec<usize>, ScheduleError>
        ensures answers { Answers (said result) (schedule 6 (strategy_of self.now) num_variables) }
        ensures lawful { IfOk result (λ ks. Lawful 6 num_variables ks.items) }
    {
        Ok(
            self.plan(Reduction::to_direct_send(num_variables))?
                .schedule(heap)?,
        )
    }

    // Compute the round schedule: number of folding rounds and final-phase variables.
    pub fn compute_number_of_rounds(
        &self,
        heap: Global,
        num_variables: usize,
    ) -> Result<(usize, usize), ScheduleError>
        ensures { Counts num_variables result (schedule 6 (strategy_of self.now) num_variables) }
    {
        let schedule = self.compute_folding_schedule(heap, num_variables)?;
        let remaining = variables_left(schedule.as_slice(), num_variables);
        Ok((schedule.len() - 1, remaining))
    }

    // The folds of the strategy, or its first fault.
    fn plan(&self, reduction: Reduction) -> Result<Plan<'_>, FoldingFactorError>
        ensures { Finds planned_factors result (schedule reduction.threshold (strategy_of self.now) reduction.num_variables) }
    {
        Ok(match self {
            FoldingFactor::Constant(factor) => {
                Plan::Clamped(reduction.clamped(*factor, *factor)?)
            }
            FoldingFactor::ConstantFromSecondRound(first_round_factor, factor) => {
                Plan::Clamped(reduction.clamped(*first_round_factor, *factor)?)
            }
            FoldingFactor::PerRound(factors) => Plan::Listed(reduction.listed(factors)?),
        })
    }
}

// What a schedule has to bring about: so many variables are folded until no more than the threshold are left.
#[derive(Clone, Copy, PartialEq, Eq, Debug)]
struct Reduction {
    num_variables: usize,
    threshold: usize,
}

// Folds by a first factor, exactly, then by another one, or by what is left where that is less.
#[derive(Clone, Copy, PartialEq, Eq, Debug)]
struct ClampedFolds {
    reduction: Reduction,
    first_round_factor: usize,
    factor: usize,
    ghost first_within: { first_round_factor ≤ reduction.num_variables },
    ghost factor_folds: { 0 < factor },
}

// The folds of a strategy without a fault, before the list of them is made.
#[derive(Clone, Copy, PartialEq, Eq, Debug)]
enum Plan<'a> {
    Clamped(ClampedFolds),

    // The listed factors that it takes.
    Listed(&'a [usize]),
}

impl Reduction {
    ghost use Rattle.parameters.specs.Plans.{clamped_factors};

    // Folding down to so few variables that the coefficients are sent directly.
    fn to_direct_send(num_variables: usize) -> Self
        ensures variables { result.num_variables ≡ num_variables }
        ensures threshold { result.threshold ≡ 6 }
    {
        Reduction {
            num_variables,
            threshold: MAX_NUM_VARIABLES_TO_SEND_COEFFS,
        }
    }

    // A first fold and clamped ones after it: no factor is zero, and the first is exact.
    fn clamped(
        self,
        first_round_factor: usize,
        factor: usize,
    ) -> Result<ClampedFolds, FoldingFactorError>
        ensures { Finds clamped_factors result (by_factors self.threshold first_round_factor factor self.num_variables) }
    {
        if first_round_factor == 0 || factor == 0 {
            return Err(FoldingFactorError::ZeroFactor);
        }
        if first_round_factor > self.num_variables {
            return Err(FoldingFactorError::TooLarge(first_round_factor, self.num_variables));
        }
        Ok(ClampedFolds {
            reduction: self,
            first_round_factor,
            factor,
        })
    }

    // As many of the listed factors as it takes, or the first fault.
    #[tactic(auto, using(crate::proofs::Listed::listed_some))]
    fn listed(self, factors: &[usize]) -> Result<&[usize], FoldingFactorError>
        ensures { Finds (λ ks. ks.now) result (listed self.threshold factors.now self.num_variables) }
    {
        if factors.is_empty() {
            return Err(FoldingFactorError::EmptySchedule);
        }
        self.check_listed(factors)?;
        self.walk_listed(factors)
    }

    // No listed factor is zero, or larger than the number of variables at the start.
    fn check_listed(self, factors: &[usize]) -> Result<(), FoldingFactorError>
        ensures { Passes result (unless_faulty self.num_variables factors.now) }
    {
        for factor in factors {
            if *factor == 0 {
                return Err(FoldingFactorError::ZeroFactor);
            }
            if *factor > self.num_variables {
                return Err(FoldingFactorError::TooLarge(*factor, self.num_variables));
            }
        }
        Ok(())
    }

    // Folds by the listed factors in turn, exactly, until no more than the threshold is left.
    #[tactic(auto, using(crate::proofs::Listed::walk_steps))]
    fn walk_listed(self, factors: &[usize]) -> Result<&[usize], FoldingFactorError>
        ensures { Finds (λ ks. ks.now) result (walk self.threshold self.num_variables self.num_variables factors.now) }
    {
        let mut remaining = self.num_variables;
        for (i, factor) in factors.iter().enumerate() {
            if *factor > remaining {
                return Err(FoldingFactorError::TooLarge(*factor, remaining));
            }
            remaining -= *factor;
            if remaining <= self.threshold {
                return Ok(&factors[..=i]);
            }
        }
        Err(FoldingFactorError::InsufficientFolding {
            num_variables: self.num_variables,
            remaining,
            threshold: self.threshold,
        })
    }
}

impl ClampedFolds {
    ghost use Rattle.parameters.specs.Plans.{clamped_factors};

    // The folds, in turn.
    #[tactic(auto, using(crate::proofs::Folds::folding_more))]
    fn schedule(self, heap: Global) -> Result<Vec<usize>, AllocError>
        ensures { IfOk result (λ ks. ks.items ≡ clamped_factors self) }
    {
        let mut schedule = Vec::new(heap);
        schedule.push(self.first_round_factor)?;
        let mut remaining = self.reduction.num_variables - self.first_round_factor;
        while remaining > self.reduction.threshold {
            let round_factor = self.factor.min(remaining);
            schedule.push(round_factor)?;
            remaining -= round_factor;
        }
        Ok(schedule)
    }
}

impl Plan<'_> {
    ghost use Rattle.parameters.specs.Plans.{planned_factors};

    // The list of the factors.
    fn schedule(self, heap: Global) -> Result<Vec<usize>, AllocError>
        ensures { IfOk result (λ ks. ks.items ≡ planned_factors self.entry) }
    {
        match self {
            Plan::Clamped(folds) => folds.schedule(heap),
            Plan::Listed(factors) => Vec::from_slice(heap, factors),
        }
    }
}

// What the factors leave of the variables.
pub fn variables_left(factors: &[usize], num_variables: usize) -> usize
    ensures { result ≡ num_variables - sum factors.now }
{
    factors
        .iter()
        .fold(num_variables, |left, factor| left.saturating_sub(*factor))
}

// Every schedule, at every threshold, strategy and number of variables, keeps the law.
pub fn schedules_lawful()
    ensures { SchedulesLawful }
{}

// Schedules of 15 variables, worked out of the definition.
pub fn sample_schedules()
    ensures { SampleSchedules }
{}
