// Where a phase's queries are made: what a checked configuration says of them.
ghost use Rattle.std.specs.Prelude.{◌≡◌, ◌^◌, ◌≤◌};
ghost use Rattle.configuration.specs.Numbers.{numbers_of};
ghost use Rattle.configuration.specs.Phases.{factor};
ghost use Rattle.transcript.specs.Shape.{difficulty};
ghost use Rattle.transcript.specs.Sites.{Site};

pub use crate::query::QuerySite;
use configuration::whir::WhirConfig;

// The query site of a round. A round at or past the last one names the final site.
pub fn query_site(config: &WhirConfig, round: usize) -> QuerySite
    ensures { Site (numbers_of config.now.numbers) round result }
{
    let positions = config.positions(round);
    QuerySite {
        pow_bits: difficulty_of(config, round),
        index_bits: positions.log,
        draws: positions.draws(),
    }
}

// Difficulty before the queries of a phase.
fn difficulty_of(config: &WhirConfig, phase: usize) -> usize
    ensures { result ≡ difficulty (numbers_of config.now.numbers) phase }
{
    config
        .numbers
        .round_parameters
        .get(phase)
        .map_or(config.numbers.terminal.pow_bits, |round| round.pow_bits)
}

// Values of the final polynomial, sent in the clear.
#[tactic(auto, using(crate::proofs::Siting::final_small))]
pub fn final_poly_len(config: &WhirConfig) -> usize
    ensures value { result ≡ 2 ^ config.now.numbers.final_sumcheck_rounds }
{
    1 << config.numbers.final_sumcheck_rounds
}

// Variables that a phase folds; none past the last phase.
pub fn factor_of(config: &WhirConfig, phase: usize) -> usize
    ensures value { result ≡ factor config.now.numbers.folding_schedule.items phase }
    ensures small { result ≤ 10 }
{
    config.round_folding_factor(phase).unwrap_or(0)
}
