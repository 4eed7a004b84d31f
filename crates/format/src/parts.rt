// The lines of a configuration, in their order.
ghost use Rattle.std.specs.Prelude.{◌≡◌};
ghost use Rattle.configuration.specs.Numbers.{numbers_of};
ghost use Rattle.format.specs.Reading.{Gives};
ghost use Rattle.format.specs.Configurations.{configuration_lines};

use crate::cursor::Cursor;
use crate::errors::Fault;
use crate::keys::Key;
use configuration::whir_parameters::WhirNumbers;

impl<'a> Cursor<'a> {
    // The numbers of a configuration, from the line of its variables to that of the last difficulty.
    #[tactic(auto, unfolding(crate::specs::Configurations::configuration_lines, crate::specs::Reading::then))]
    pub fn configuration(&mut self) -> Result<WhirNumbers, Fault>
        ensures { Gives numbers_of (configuration_lines self.old.rest.now) result self.new.rest.now }
    {
        Ok(WhirNumbers {
            num_variables: self.line_with(Key::NumVariables)?,
            max_log_domain_size: self.line_with(Key::Capacity)?,
            domain_id: self.line_with(Key::DomainId)?,
            stratified_queries: self.line_with(Key::Stratified)?,
            starting_log_inv_rate: self.line_with(Key::StartingLogInvRate)?,
            round_log_inv_rates: self.line_with(Key::RoundLogInvRates)?,
            folding_factor: self.line_with(Key::FoldingFactor)?,
            soundness: self.line_with(Key::Soundness)?,
            security_level: self.line_with(Key::SecurityLevel)?,
            pow_budget: self.line_with(Key::PowBudget)?,
            folding_schedule: self.line_with(Key::Schedule)?,
            round_parameters: self.rounds()?,
            commitment_ood_samples: self.line_with(Key::CommitmentOodSamples)?,
            starting_folding_pow_bits: self.line_with(Key::StartingFoldingPowBits)?,
            terminal: self.line_with(Key::Terminal)?,
            final_sumcheck_rounds: self.line_with(Key::FinalSumcheckRounds)?,
            final_folding_pow_bits: self.line_with(Key::FinalFoldingPowBits)?,
        })
    }
}
