// The steps of a run, in a list of their own.
ghost use Rattle.std.specs.Prelude.{◌≡◌, ◌^◌, ◌<◌, true, map, Some, IfOk, unwrap_or, ◌≢◌};
ghost use Rattle.std.specs.List.{flat_map, AllByRecursion};
ghost use Rattle.transcript.specs.Depths.{depths};
ghost use Rattle.transcript.specs.Steps.{step_of, bracket};
ghost use Rattle.transcript.specs.Pattern.{pattern, sample_steps, grinding_steps, query_steps, round_steps, final_steps};
ghost use Rattle.transcript.specs.Owned.{round_of, shape_of, Adds};

use crate::interaction::{Hierarchy, Interaction, Label};
use crate::shape::{WhirRoundShape, WhirShape};
use std::alloc::{AllocError, Global};
use std::fmt;

// The steps of a run, in order.
#[derive(Drop, PartialEq, Eq, Debug)]
pub struct InteractionPattern {
    pub interactions: Vec<Interaction>,
}

// Append a grinding step, unless the site asks for no work at all.
#[tactic(auto, using(crate::proofs::Owning::adds_one, crate::proofs::Owning::adds_on))]
fn push_pow(steps: &mut Vec<Interaction>, label: Label, bits: usize) -> Result<(), AllocError>
    ensures { IfOk result (λ _. Adds steps.old.items steps.new.items (grinding_steps bits label)) }
{
    if bits != 0 {
        steps.push(Interaction::pow(bits, label))?;
    }
    Ok(())
}

// Append the opener and closer of one delegated phase.
#[tactic(auto, using(crate::proofs::Owning::adds_one, crate::proofs::Owning::adds_on))]
fn push_delegation(steps: &mut Vec<Interaction>, label: Label) -> Result<(), AllocError>
    ensures { IfOk result (λ _. Adds steps.old.items steps.new.items (bracket label)) }
{
    steps.push(Interaction::marker(Hierarchy::Begin, label))?;
    Ok(steps.push(Interaction::marker(Hierarchy::End, label))?)
}

// The query indices of one site: how many are drawn and how wide, whether in strata, and the depths of these.
#[derive(Clone, Copy)]
struct QueryIndices<'a> {
    index_bits: usize,
    draws: Option<usize>,
    stratified: bool,
    summand_depths: &'a [usize],
    ghost summands: { summand_depths.now ≡ depths (unwrap_or draws 0) },
    ghost some: { draws ≢ Some 0 },
}

impl QueryIndices<'_> {
    // Append the steps of the site's indices.
    #[tactic(auto, using(crate::proofs::Owning::adds_one, crate::proofs::Owning::adds_on, crate::proofs::Owning::draws_added))]
    fn push(&self, steps: &mut Vec<Interaction>, label: Label) -> Result<(), AllocError>
        ensures { IfOk result (λ _. Adds steps.old.items steps.new.items (query_steps self.now.stratified self.now.index_bits (unwrap_or self.now.draws 0) self.now.summand_depths.now label)) }
    {
        if self.stratified {
            self.push_stratified(steps, label)?;
        } else if let Some(draws) = self.draws {
            steps.push(Interaction::uniform_bits(self.index_bits, draws, label))?;
        }
        Ok(())
    }

    // Append one fixed-width draw for each summand of a stratified query schedule.
    #[tactic(auto, using(crate::proofs::Owning::depth_small, crate::proofs::Owning::stratum_added))]
    fn push_stratified(&self, steps: &mut Vec<Interaction>, label: Label) -> Result<(), AllocError>
        ensures { IfOk result (λ _. Adds steps.old.items steps.new.items (query_steps true self.now.index_bits (unwrap_or self.now.draws 0) self.now.summand_depths.now label)) }
    {
        for depth in self.summand_depths {
            let bits = self.index_bits.saturating_sub(*depth);
            steps.push(Interaction::uniform_bits(bits, 1 << *depth, label))?;
        }
        Ok(())
    }
}

impl WhirRoundShape {
    // The indices that the round draws.
    fn query_indices(&self) -> QueryIndices<'_>
        ensures { (result.index_bits ≡ self.now.index_bits) × (result.draws ≡ self.now.query_draws) × (result.stratified ≡ self.now.stratified_queries) × (result.summand_depths.now ≡ self.now.query_summand_depths.items) }
    {
        QueryIndices {
            index_bits: self.index_bits,
            draws: self.query_draws,
            stratified: self.stratified_queries,
            summand_depths: &self.query_summand_depths,
        }
    }

    // Append this round's steps to a step sequence under construction.
    #[tactic(auto, using(crate::proofs::Owning::adds_one, crate::proofs::Owning::adds_on))]
    fn extend(&self, steps: &mut Vec<Interaction>, degree: usize) -> Result<(), AllocError>
        ensures { IfOk result (λ _. Adds steps.old.items steps.new.items (round_steps degree (round_of self.now))) }
    {
        steps.push(Interaction::commitment())?;
        self.push_samples(steps, degree)?;
        push_pow(steps, Label::QueryPow, self.query_pow_bits)?;
        self.query_indices().push(steps, Label::QueryIndices)?;
        steps.push(Interaction::drawn(degree, Label::RoundBatching))?;
        push_delegation(steps, Label::RoundFold)
    }

    // Point and answer alternate: each answer is bound before the next draw.
    #[tactic(auto, using(crate::proofs::Owning::adds_one, crate::proofs::Owning::adds_on, crate::proofs::Owning::samples_added))]
    fn push_samples(&self, steps: &mut Vec<Interaction>, degree: usize) -> Result<(), AllocError>
        ensures { IfOk result (λ _. Adds steps.old.items steps.new.items (sample_steps degree self.now.ood_samples)) }
    {
        for _i in 0..self.ood_samples {
            steps.push(Interaction::drawn(degree, Label::OodPoint))?;
            steps.push(Interaction::sent(degree, 0, Label::OodAnswer))?;
        }
        Ok(())
    }
}

impl WhirShape {
    // The indices that the final phase draws.
    fn final_query_indices(&self) -> QueryIndices<'_>
        ensures { (result.index_bits ≡ self.now.final_index_bits) × (result.draws ≡ self.now.final_query_draws) × (result.stratified ≡ self.now.stratified_queries) × (result.summand_depths.now ≡ self.now.final_query_summand_depths.items) }
    {
        QueryIndices {
            index_bits: self.final_index_bits,
            draws: self.final_query_draws,
            stratified: self.stratified_queries,
            summand_depths: &self.final_query_summand_depths,
        }
    }

    // Append the steps of all rounds.
    #[tactic(auto, using(crate::proofs::Owning::adds_one, crate::proofs::Owning::adds_on))]
    fn push_rounds(&self, steps: &mut Vec<Interaction>, degree: usize) -> Result<(), AllocError>
        ensures { IfOk result (λ _. Adds steps.old.items steps.new.items (flat_map (round_steps degree) (shape_of self.now).rounds)) }
    {
        for round in &self.rounds {
            round.extend(steps, degree)?;
        }
        Ok(())
    }

    // Append the steps of the final phase.
    #[tactic(auto, using(crate::proofs::Owning::adds_one, crate::proofs::Owning::adds_on))]
    fn push_final(&self, steps: &mut Vec<Interaction>, degree: usize) -> Result<(), AllocError>
        ensures { IfOk result (λ _. Adds steps.old.items steps.new.items (final_steps degree (shape_of self.now))) }
    {
        // The final polynomial is sent in full, so it is one fixed-length step.
        steps.push(Interaction::sent(degree, self.final_poly_len, Label::FinalPoly))?;
        push_pow(steps, Label::FinalQueryPow, self.final_pow_bits)?;
        self.final_query_indices()
            .push(steps, Label::FinalQueryIndices)?;
        // A run described with no closing rounds delegates nothing at all.
        if self.final_sumcheck.rounds != 0 {
            push_delegation(steps, Label::FinalFold)?;
        }
        Ok(())
    }

    // Describe the transcript this shape fixes, over an extension of this degree.
    #[tactic(auto, using(crate::proofs::Owning::adds_one, crate::proofs::Owning::adds_on))]
    pub fn pattern(&self, heap: Global, degree: usize) -> Result<InteractionPattern, AllocError>
        ensures { IfOk result (λ p. map step_of p.interactions.items ≡ pattern degree (shape_of self.now)) }
    {
        let mut interactions = Vec::new(heap);
        push_delegation(&mut interactions, Label::InitialFold)?;
        self.push_rounds(&mut interactions, degree)?;
        self.push_final(&mut interactions, degree)?;
        Ok(InteractionPattern { interactions })
    }
}

// A line with the number of steps, and one for each.
impl fmt::Display for InteractionPattern {
    fn fmt<W: fmt::Write>(&self, f: &mut fmt::Formatter<W>) -> fmt::Result {
        write!(f, "steps {}", self.interactions.len())?;
        for step in &self.interactions {
            write!(f, "\nstep {step}")?;
        }
        Ok(())
    }
}
