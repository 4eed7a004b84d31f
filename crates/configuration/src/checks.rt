// The checks on the numbers of a configuration, one definition each.
ghost use Rattle.std.specs.Prelude.{◌≡◌, ◌+◌, ◌^◌, true, cond, length, Some, None, nat_le, nat_lt, slice_index};
ghost use Rattle.std.specs.Iterator.Adapters.{zip_first, zip_second};
ghost use Rattle.std.specs.List.{list_all};
ghost use Rattle.std.specs.Slice.Iter.{iter_rest};
ghost use Rattle.parameters.specs.Replies.{strategy_of};
ghost use Rattle.configuration.specs.Numbers.{numbers_of};
ghost use Rattle.configuration.specs.Limits.{at_most, all_by, factors_of, sizes_within, difficulties_within, others_within, lists_within, round_within, within_limits};
ghost use Rattle.configuration.specs.Phases.{every, same, rate, rates, rates_of, round_agrees, domain_fits, rates_agree, consistent, drawn, query_draws, queries, openings_within};
ghost use Rattle.configuration.specs.Walk.{pair_agrees, pair_follows, paired, phases, phases_left};

use crate::positions::Positions;
use crate::walk::{PhaseNumbers, Phases};
use crate::whir_parameters::{RoundConfig, SecurityAssumption, WhirNumbers};
use parameters::folding::{FoldingFactor, variables_left};
use std::iter::Zip;
use std::slice::Iter;

// Each of the numbers is at most the bound.
fn all_at_most(numbers: &[usize], bound: usize) -> bool
    ensures { result ≡ at_most bound numbers.now }
{
    numbers.iter().all(|number| *number <= bound)
}

// How many factors a strategy names.
fn factor_count(strategy: &FoldingFactor) -> usize
    ensures { result ≡ length (factors_of (strategy_of strategy.now)) }
{
    match strategy {
        FoldingFactor::Constant(_) => 1,
        FoldingFactor::ConstantFromSecondRound(_, _) => 2,
        FoldingFactor::PerRound(factors) => factors.len(),
    }
}

// Each factor of a strategy is at most the bound.
fn factors_at_most(strategy: &FoldingFactor, bound: usize) -> bool
    ensures { result ≡ at_most bound (factors_of (strategy_of strategy.now)) }
{
    match strategy {
        FoldingFactor::Constant(f) => all_at_most(&[*f], bound),
        FoldingFactor::ConstantFromSecondRound(f, g) => all_at_most(&[*f, *g], bound),
        FoldingFactor::PerRound(factors) => all_at_most(factors.as_slice(), bound),
    }
}

#[tactic(auto, unfolding(crate::specs::Limits::round_within))]
fn round_within(r: &RoundConfig) -> bool
    ensures { result ≡ round_within r.now }
{
    let difficulties = [r.pow_bits, r.folding_pow_bits];
    let others = [
        r.num_queries,
        r.num_variables,
        r.folding_factor,
        r.log_inv_rate,
        r.log_folded_domain_size,
    ];
    let sizes = r.ood_samples <= 16 && r.domain_size <= 65_536;
    all_at_most(&difficulties, 30) && sizes && all_at_most(&others, 65_535)
}

fn rounds_within(rounds: &[RoundConfig]) -> bool
    ensures { result ≡ all_by round_within rounds.now }
{
    rounds.iter().all(round_within)
}

// The listed rates are those of the rounds.
fn rates_listed(listed: &[usize], rounds: &[RoundConfig]) -> bool
    ensures { result ≡ same listed.now (rates_of rounds.now) }
{
    let rates = rounds.iter().map(|round| round.log_inv_rate);
    listed.iter().copied().eq(rates)
}

// How many positions are drawn; none where every one opens, since the queries cover all there are, or there are none.
pub fn query_draws(folded_domain_size: usize, num_queries: usize) -> Option<usize>
    ensures { result ≡ drawn (query_draws folded_domain_size num_queries) }
{
    (0 < num_queries && num_queries < folded_domain_size).then_some(num_queries)
}

// Two to the power, where there is room for it.
fn power_of_two(log: usize) -> Option<usize>
    ensures { result ≡ cond (nat_lt log 64) (Some (2 ^ log)) None }
{
    (log < 64).then(|| 1 << log)
}

impl WhirNumbers {
    // Every number given is within its limits.
    #[tactic(auto, unfolding(crate::specs::Limits::within_limits))]
    pub fn within_limits(&self) -> bool
        ensures { result ≡ within_limits (numbers_of self.now) }
    {
        self.sizes_within()
            && self.difficulties_within()
            && self.others_within()
            && self.lists_within()
            && rounds_within(self.round_parameters.as_slice())
    }

    fn sizes_within(&self) -> bool
        ensures { result ≡ sizes_within (numbers_of self.now) }
    {
        let sizes = [
            self.num_variables,
            self.max_log_domain_size,
            factor_count(&self.folding_factor),
        ];
        let small = all_at_most(&sizes, 16);
        let known = SecurityAssumption::try_from(self.soundness).is_ok();
        self.num_variables >= 1 && small && self.domain_id.len() <= 32 && known
    }

    fn difficulties_within(&self) -> bool
        ensures { result ≡ difficulties_within (numbers_of self.now) }
    {
        all_at_most(
            &[
                self.starting_folding_pow_bits,
                self.terminal.pow_bits,
                self.final_folding_pow_bits,
            ],
            30,
        )
    }

    fn others_within(&self) -> bool
        ensures { result ≡ others_within (numbers_of self.now) }
    {
        let numbers = [
            self.starting_log_inv_rate,
            self.security_level,
            self.pow_budget,
            self.commitment_ood_samples,
            self.terminal.num_queries,
            self.final_sumcheck_rounds,
        ];
        let lengths = [
            self.round_log_inv_rates.len(),
            self.folding_schedule.len(),
            self.round_parameters.len(),
        ];
        all_at_most(&numbers, 65_535) && all_at_most(&lengths, 65_535)
    }

    fn lists_within(&self) -> bool
        ensures { result ≡ lists_within (numbers_of self.now) }
    {
        all_at_most(self.round_log_inv_rates.as_slice(), 65_535)
            && all_at_most(self.folding_schedule.as_slice(), 65_535)
            && factors_at_most(&self.folding_factor, 65_535)
    }

    // Log of the inverse rate before a phase.
    pub fn rate_before(&self, phase: usize) -> usize
        ensures { result ≡ rate (numbers_of self.now) phase }
    {
        phase
            .checked_sub(1)
            .map_or(self.starting_log_inv_rate, |round| self.rate_after(round))
    }

    // Log of the inverse rate after a round; 0 past the last.
    fn rate_after(&self, round: usize) -> usize
        ensures { result ≡ slice_index (rates (numbers_of self.now)) round }
    {
        self.round_parameters
            .get(round)
            .map_or(0, |round| round.log_inv_rate)
    }

    // Queries of a phase: those of its round, or of the final phase.
    pub fn queries_of(&self, phase: usize) -> usize
        ensures { result ≡ queries (numbers_of self.now) phase }
    {
        self.round_parameters
            .get(phase)
            .map_or(self.terminal.num_queries, |round| round.num_queries)
    }
}

impl PhaseNumbers {
    // The domain before the phase fits the capacity.
    fn fits(self, capacity: usize) -> bool
        ensures { result ≡ nat_le (self.variables + self.rate) capacity }
    {
        self.rate <= capacity && self.variables <= capacity - self.rate
    }

    // The numbers of a round are those of the phase.
    #[tactic(auto, unfolding(crate::specs::Phases::round_agrees))]
    fn agrees(self, round: &RoundConfig) -> bool
        ensures { result ≡ pair_agrees (self, round.now) }
    {
        let log = self.variables.saturating_add(self.rate);
        if power_of_two(log) != Some(round.domain_size) {
            return false;
        }
        let left = self.variables.saturating_sub(self.factor);
        let fold = round.num_variables == left && round.folding_factor == self.factor;
        let folded = round.log_folded_domain_size == log.saturating_sub(self.factor);
        fold && folded && round.log_inv_rate <= self.rate.saturating_add(self.factor)
    }

    // The rate of a round is one less than the phase's domain allows.
    fn is_followed_by(self, round: &RoundConfig) -> bool
        ensures { result ≡ pair_follows (self, round.now) }
    {
        let allowed = self.rate as u128 + self.factor as u128;
        round.log_inv_rate as u128 == allowed.saturating_sub(1)
    }
}

// Numbers within their limits, with the schedule of their strategy.
#[derive(Clone, Copy)]
pub(crate) struct Planned<'a> {
    pub(crate) numbers: &'a WhirNumbers,
    pub(crate) schedule: &'a [usize],
    ghost limited: { within_limits (numbers_of numbers.now) ≡ true },
}

impl Planned<'_> {
    // Every domain fits the capacity.
    fn domains_fit(&self) -> bool
        ensures { result ≡ every (length self.now.schedule.now) (domain_fits (numbers_of self.now.numbers.now) self.now.schedule.now) }
    {
        let capacity = self.numbers.max_log_domain_size;
        self.numbers
            .phases(self.schedule)
            .all(|phase| phase.fits(capacity))
    }

    // Each round with its phase.
    fn paired(&self) -> Zip<Phases<'_>, Iter<'_, RoundConfig>>
        ensures phases { phases_left (zip_first result) ≡ phases (numbers_of self.now.numbers.now) self.now.schedule.now }
        ensures rounds { iter_rest (zip_second result) ≡ self.now.numbers.now.round_parameters.items }
    {
        self.numbers
            .phases(self.schedule)
            .zip(&self.numbers.round_parameters)
    }

    // Each round's numbers are those of its phase.
    fn rounds_agree(&self) -> bool
        ensures { result ≡ list_all pair_agrees (paired (numbers_of self.now.numbers.now) self.now.schedule.now) }
    {
        self.paired().all(|(phase, round)| phase.agrees(round))
    }

    // Each rate is one less than its phase's domain allows.
    fn rates_follow(&self) -> bool
        ensures { result ≡ list_all pair_follows (paired (numbers_of self.now.numbers.now) self.now.schedule.now) }
    {
        self.paired()
            .all(|(phase, round)| phase.is_followed_by(round))
    }

    // The rates agree with the rounds, listed or following the folds.
    fn rates_agree(&self) -> bool
        requires { length self.now.numbers.now.round_parameters.items + 1 ≡ length self.now.schedule.now }
        ensures { result ≡ rates_agree (numbers_of self.now.numbers.now) self.now.schedule.now }
    {
        let listed = self.numbers.round_log_inv_rates.as_slice();
        rates_listed(listed, self.numbers.round_parameters.as_slice())
            || (listed.is_empty() && self.rates_follow())
    }

    // The numbers belong together with the schedule of their strategy.
    pub(crate) fn is_consistent(&self) -> bool
        ensures { result ≡ consistent (numbers_of self.now.numbers.now) self.now.schedule.now }
    {
        if self.numbers.folding_schedule.as_slice() != self.schedule {
            return false;
        }
        if self.numbers.round_parameters.len() + 1 != self.schedule.len() {
            return false;
        }
        if !self.domains_fit() || !self.rounds_agree() {
            return false;
        }
        let last = variables_left(self.schedule, self.numbers.num_variables);
        self.numbers.final_sumcheck_rounds == last && self.rates_agree()
    }

    // No phase folds or opens too much.
    pub(crate) fn openings_within(&self) -> bool
        requires { consistent (numbers_of self.now.numbers.now) self.now.schedule.now ≡ true }
        ensures { result ≡ openings_within (numbers_of self.now.numbers.now) self.now.schedule.now }
    {
        self.numbers.phases(self.schedule).all(|phase| {
            let rows = phase.positions().map(Positions::rows);
            phase.factor <= 10 && rows.is_some_and(|rows| rows <= 1_024)
        })
    }
}
