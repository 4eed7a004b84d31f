// Opening a run: the separator is observed from the configuration's numbers, piece by piece, and nothing is allocated.
ghost use Rattle.std.specs.Prelude.{◌≡◌, ◌≤◌, true, [], ◌∷◌, map, length, Some, Ok, slice_get};
ghost use Rattle.std.specs.List.{flat_map};
ghost use Rattle.parameters.specs.Replies.{strategy_of};
ghost use Rattle.sponge.specs.Plays.{Plays};
ghost use Rattle.configuration.specs.Numbers.{numbers_of};
ghost use Rattle.transcript.specs.Bytes.{eight};
ghost use Rattle.transcript.specs.Depths.{depths};
ghost use Rattle.transcript.specs.Steps.{step_bytes, step_of, bracket};
ghost use Rattle.transcript.specs.Shape.{shape, round_shape};
ghost use Rattle.transcript.specs.Sites.{draws_of};
ghost use Rattle.transcript.specs.Pattern.{sample_steps, grinding_steps, query_steps, round_steps, final_steps};
ghost use Rattle.transcript.specs.Instances.{instance_bytes, instances, domain_instances, strategy_numbers, round_numbers};
ghost use Rattle.transcript.specs.Opening.{taken, opening};

use crate::depths::Depths;
use crate::interaction::{Hierarchy, Interaction, Label};
use crate::piece::Piece;
use crate::query::QuerySite;
use crate::sites::{factor_of, final_poly_len, query_site};
use configuration::whir::WhirConfig;
use configuration::whir_parameters::RoundConfig;
use parameters::folding::FoldingFactor;
use sponge::Sponge;

// One step is observed.
#[tactic(auto, unfolding(crate::specs::Opening::taken))]
fn observe_step<S: Sponge>(sponge: &mut S, step: Interaction)
    ensures { S.Sponge.held sponge.new ≡ taken S.Sponge.rules step_bytes (S.Sponge.held sponge.old) (step_of step ∷ []) }
{
    sponge.observe(step.encode().as_slice());
}

// The opener and the closer of a sumcheck that is delegated.
#[tactic(auto, unfolding(crate::specs::Opening::taken))]
fn observe_bracket<S: Sponge>(sponge: &mut S, label: Label)
    ensures { S.Sponge.held sponge.new ≡ taken S.Sponge.rules step_bytes (S.Sponge.held sponge.old) (bracket label) }
{
    observe_step(sponge, Interaction::marker(Hierarchy::Begin, label));
    observe_step(sponge, Interaction::marker(Hierarchy::End, label));
}

// A zero-difficulty grind is not a step.
#[tactic(auto, unfolding(crate::specs::Opening::taken))]
fn observe_pow<S: Sponge>(sponge: &mut S, bits: usize, label: Label)
    ensures { S.Sponge.held sponge.new ≡ taken S.Sponge.rules step_bytes (S.Sponge.held sponge.old) (grinding_steps bits label) }
{
    if bits != 0 {
        observe_step(sponge, Interaction::pow(bits, label));
    }
}

// One fixed-width draw for each summand of a stratified query schedule.
#[tactic(auto, using(crate::proofs::Summing::depths_end), unfolding(crate::specs::Opening::taken))]
fn observe_strata<S: Sponge>(sponge: &mut S, width: usize, draws: usize, label: Label)
    ensures { S.Sponge.held sponge.new ≡ taken S.Sponge.rules step_bytes (S.Sponge.held sponge.old) (query_steps true width draws (depths draws) label) }
{
    for depth in Depths(draws) {
        let bits = width.saturating_sub(depth);
        observe_step(sponge, Interaction::uniform_bits(bits, 1 << depth, label));
    }
}

// Numbers, each an instance of eight bytes.
#[tactic(auto, unfolding(crate::specs::Opening::taken))]
fn observe_numbers<S: Sponge>(sponge: &mut S, numbers: &[usize])
    ensures { S.Sponge.held sponge.new ≡ taken S.Sponge.rules instance_bytes (S.Sponge.held sponge.old) (map eight numbers.now) }
{
    for number in numbers {
        sponge.observe(Piece::instance(&number.to_be_bytes()).as_slice());
    }
}

// The domain's name and whether its queries are stratified, if it has a name.
#[tactic(auto, using(crate::proofs::Describing::flag_byte), unfolding(crate::specs::Opening::taken))]
fn observe_domain<S: Sponge>(sponge: &mut S, id: &[u8], stratified: bool)
    requires { length id.now ≤ 32 }
    ensures { S.Sponge.held sponge.new ≡ taken S.Sponge.rules instance_bytes (S.Sponge.held sponge.old) (domain_instances id.now stratified) }
{
    if !id.is_empty() {
        sponge.observe(Piece::instance(id).as_slice());
        sponge.observe(Piece::instance(&[u8::from(stratified)]).as_slice());
    }
}

// The folding strategy: its variant, then the numbers it carries.
#[tactic(auto, unfolding(crate::specs::Opening::taken))]
fn observe_strategy<S: Sponge>(sponge: &mut S, factor: &FoldingFactor)
    ensures { S.Sponge.held sponge.new ≡ taken S.Sponge.rules instance_bytes (S.Sponge.held sponge.old) (map eight (strategy_numbers (strategy_of factor.now))) }
{
    match factor {
        FoldingFactor::Constant(f) => observe_numbers(sponge, &[0, *f]),
        FoldingFactor::ConstantFromSecondRound(first, rest) => {
            observe_numbers(sponge, &[1, *first, *rest])
        }
        FoldingFactor::PerRound(factors) => {
            observe_numbers(sponge, &[2, factors.len()]);
            observe_numbers(sponge, factors.as_slice());
        }
    }
}

// What a separator describes: a run's configuration, the degree of its extension field, and how many claims are opened.
//
// Kept: the sponge is handed to each method, for the reason that stands beside `Run`: a struct that held it as `&'a mut S` would promise in each of
// its seven methods that the configuration, the degree, the number of claims and the reference stay.
#[derive(Clone, Copy)]
struct Description<'a> {
    config: &'a WhirConfig,
    degree: usize,
    num_opening_claims: usize,
}

impl<'a> Description<'a> {
    // Point and answer alternate: each answer is bound before the next draw.
    #[tactic(auto, using(crate::proofs::Taking::samples_more, crate::proofs::Taking::taken_append), unfolding(crate::specs::Opening::taken))]
    fn observe_samples<S: Sponge>(&self, sponge: &mut S, count: usize)
        ensures { S.Sponge.held sponge.new ≡ taken S.Sponge.rules step_bytes (S.Sponge.held sponge.old) (sample_steps self.now.degree count) }
    {
        for _i in 0..count {
            observe_step(sponge, Interaction::drawn(self.degree, Label::OodPoint));
            observe_step(sponge, Interaction::sent(self.degree, 0, Label::OodAnswer));
        }
    }

    // The indices of a phase, unless it opens every position.
    #[tactic(auto, using(crate::proofs::Describing::no_queries), unfolding(crate::specs::Opening::taken))]
    fn observe_indices<S: Sponge>(&self, sponge: &mut S, site: QuerySite, label: Label)
        ensures { S.Sponge.held sponge.new ≡ taken S.Sponge.rules step_bytes (S.Sponge.held sponge.old) (query_steps self.now.config.now.numbers.stratified_queries site.index_bits (draws_of site) (depths (draws_of site)) label) }
    {
        let Some(draws) = site.draws else {
            return;
        };
        if self.config.numbers.stratified_queries {
            observe_strata(sponge, site.index_bits, draws, label);
        } else {
            observe_step(
                sponge,
                Interaction::uniform_bits(site.index_bits, draws, label),
            );
        }
    }

    // One round's steps.
    fn observe_round<S: Sponge>(&self, sponge: &mut S, index: usize, round: &RoundConfig)
        requires { slice_get self.now.config.now.numbers.round_parameters.items index ≡ Some round.now }
        ensures { S.Sponge.held sponge.new ≡ taken S.Sponge.rules step_bytes (S.Sponge.held sponge.old) (round_steps self.now.degree (round_shape (numbers_of self.now.config.now.numbers) index)) }
    {
        let site = query_site(self.config, index);
        observe_step(sponge, Interaction::commitment());
        self.observe_samples(sponge, round.ood_samples);
        observe_pow(sponge, site.pow_bits, Label::QueryPow);
        self.observe_indices(sponge, site, Label::QueryIndices);
        observe_step(
            sponge,
            Interaction::drawn(self.degree, Label::RoundBatching),
        );
        observe_bracket(sponge, Label::RoundFold);
    }

    // The steps of all rounds.
    #[tactic(auto, unfolding(crate::specs::Opening::taken))]
    fn observe_rounds<S: Sponge>(&self, sponge: &mut S)
        ensures { S.Sponge.held sponge.new ≡ taken S.Sponge.rules step_bytes (S.Sponge.held sponge.old) (flat_map (round_steps self.now.degree) (shape (numbers_of self.now.config.now.numbers) self.now.num_opening_claims).rounds) }
    {
        for (i, round) in self.config.numbers.round_parameters.iter().enumerate() {
            self.observe_round(sponge, i, round);
        }
    }

    // The steps of the final phase.
    fn observe_final<S: Sponge>(&self, sponge: &mut S)
        ensures { S.Sponge.held sponge.new ≡ taken S.Sponge.rules step_bytes (S.Sponge.held sponge.old) (final_steps self.now.degree (shape (numbers_of self.now.config.now.numbers) self.now.num_opening_claims)) }
    {
        let numbers = &self.config.numbers;
        let site = query_site(self.config, numbers.round_parameters.len());
        let length = final_poly_len(self.config);
        observe_step(
            sponge,
            Interaction::sent(self.degree, length, Label::FinalPoly),
        );
        observe_pow(sponge, site.pow_bits, Label::FinalQueryPow);
        self.observe_indices(sponge, site, Label::FinalQueryIndices);
        if numbers.final_sumcheck_rounds != 0 {
            observe_bracket(sponge, Label::FinalFold);
        }
    }

    // Each round commits at its own rate, and its sumcheck has its own numbers.
    #[tactic(auto, unfolding(crate::specs::Opening::taken))]
    fn observe_round_numbers<S: Sponge>(&self, sponge: &mut S)
        ensures { S.Sponge.held sponge.new ≡ taken S.Sponge.rules instance_bytes (S.Sponge.held sponge.old) (map eight (flat_map round_numbers (shape (numbers_of self.now.config.now.numbers) self.now.num_opening_claims).rounds)) }
    {
        for (i, round) in self.config.numbers.round_parameters.iter().enumerate() {
            let factor = factor_of(self.config, i + 1);
            observe_numbers(
                sponge,
                &[round.log_inv_rate, factor, round.folding_pow_bits],
            );
        }
    }

    // The instances, in order.
    fn observe_instances<S: Sponge>(&self, sponge: &mut S)
        ensures { S.Sponge.held sponge.new ≡ taken S.Sponge.rules instance_bytes (S.Sponge.held sponge.old) (instances (shape (numbers_of self.now.config.now.numbers) self.now.num_opening_claims)) }
    {
        let numbers = &self.config.numbers;
        let factor = factor_of(self.config, 0);
        observe_numbers(
            sponge,
            &[
                numbers.num_variables,
                numbers.commitment_ood_samples,
                self.num_opening_claims,
                1 << factor,
                numbers.security_level,
                numbers.pow_budget,
                numbers.starting_log_inv_rate,
                numbers.soundness,
            ],
        );
        observe_domain(
            sponge,
            numbers.domain_id.as_slice(),
            numbers.stratified_queries,
        );
        observe_strategy(sponge, &numbers.folding_factor);
        observe_numbers(
            sponge,
            &[
                factor,
                numbers.starting_folding_pow_bits,
                numbers.final_sumcheck_rounds,
                numbers.final_folding_pow_bits,
                numbers.round_parameters.len(),
            ],
        );
        self.observe_round_numbers(sponge);
    }
}

// The whole separator: the version, the protocol's name, the steps, the instances.
pub fn observe_separator<S: Sponge>(
    sponge: &mut S,
    config: &WhirConfig,
    degree: usize,
    num_opening_claims: usize,
)
    ensures { Plays S.Sponge.rules (S.Sponge.held sponge.old) (opening (numbers_of config.now.numbers) degree num_opening_claims) (Ok tt) (S.Sponge.held sponge.new) }
{
    let description = Description {
        config,
        degree,
        num_opening_claims,
    };
    sponge.observe(&[3]);
    sponge.observe(b"p3-whir");
    observe_bracket(sponge, Label::InitialFold);
    description.observe_rounds(sponge);
    description.observe_final(sponge);
    description.observe_instances(sponge);
}
