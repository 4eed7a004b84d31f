// The positions that a phase opens, into a lent slice.
ghost use Rattle.std.specs.Prelude.{◌≡◌, ◌≤◌, length, Ok};
ghost use Rattle.sponge.specs.Play.{counted};
ghost use Rattle.sponge.specs.Plays.{Plays};
ghost use Rattle.configuration.specs.Numbers.{numbers_of};
ghost use Rattle.transcript.specs.Depths.{depths};
ghost use Rattle.transcript.specs.Sites.{phase_of, draws_of};
ghost use Rattle.transcript.specs.Positions.{indices_drawn, strata_drawn, positions_at, opened_at, Indices, PositionsPlaced};

use crate::depths::Depths;
use crate::failure::NoRoom;
use crate::query::QuerySite;
use crate::sites::query_site;
use configuration::whir::WhirConfig;
use sponge::Sponge;
use sponge::drawing::draw_bits;

// Every position, in order.
#[tactic(auto, using(crate::proofs::Filling::number_on))]
fn fill_all(out: &mut [usize])
    ensures { out.new ≡ counted 0 (length out.old) }
{
    for (i, place) in out.iter_mut().enumerate() {
        *place = i;
    }
}

// An index of so many bits for each place, the j-th moved on by j strides.
#[tactic(auto, using(crate::proofs::Filling::indices_begin))]
fn draw_indices<S: Sponge>(sponge: &mut S, out: &mut [usize], bits: usize, stride: usize)
    requires few { length out.old ≤ 65536 }
    requires narrow { bits ≤ 16 }
    requires near { stride ≤ 65536 }
    ensures { Plays S.Sponge.rules (S.Sponge.held sponge.old) (indices_drawn bits stride (length out.old)) (Ok out.new) (S.Sponge.held sponge.new) }
{
    for (j, place) in out.iter_mut().enumerate() {
        let low = draw_bits(sponge, bits as u32);
        *place = j * stride + low as usize;
    }
}

// One index in each part, for each summand of as many draws as places, no more than the site's: the highest first, then those of the rest.
#[tactic(auto, using(crate::proofs::Summing::highest_small, crate::proofs::Summing::highest_taken, crate::proofs::Filling::strata_none))]
fn draw_strata<S: Sponge>(sponge: &mut S, out: &mut [usize], site: QuerySite)
    requires { length out.old ≤ draws_of site }
    ensures { Plays S.Sponge.rules (S.Sponge.held sponge.old) (strata_drawn site.index_bits (depths (length out.old))) (Ok out.new) (S.Sponge.held sponge.new) }
{
    if let Some(depth) = Depths(out.len()).next() {
        let bits = site.index_bits.saturating_sub(depth);
        let (part, rest) = out.split_at_mut(1 << depth);
        draw_indices(sponge, part, bits, 1 << bits);
        draw_strata(sponge, rest, site);
    }
}

// The positions of a phase, one for each place.
#[tactic(auto, using(crate::proofs::Filling::positions_all))]
fn draw_positions<S: Sponge>(sponge: &mut S, out: &mut [usize], site: QuerySite, stratified: bool)
    requires { length out.old ≡ opened_at site.index_bits (draws_of site) }
    ensures { Plays S.Sponge.rules (S.Sponge.held sponge.old) (positions_at stratified site.index_bits (draws_of site)) (Ok out.new) (S.Sponge.held sponge.new) }
{
    match site.draws {
        None => fill_all(out),
        Some(_) if stratified => draw_strata(sponge, out, site),
        Some(_) => draw_indices(sponge, out, site.index_bits, 0),
    }
}

// Draws the positions of a round's phase into the first places of a slice; where they have no room, nothing is drawn or written.
pub(crate) fn redraw<S: Sponge>(
    sponge: &mut S,
    config: &WhirConfig,
    round: usize,
    out: &mut [usize],
) -> Result<(), NoRoom>
    ensures { Indices S.Sponge.rules (numbers_of config.now.numbers) (phase_of (numbers_of config.now.numbers) round) result (S.Sponge.held sponge.old) (S.Sponge.held sponge.new) out.old out.new }
{
    let site = query_site(config, round);
    let rows = site.draws.unwrap_or(1 << site.index_bits);
    if rows > out.len() {
        return Err(NoRoom);
    }
    let stratified = config.numbers.stratified_queries;
    draw_positions(sponge, &mut out[..rows], site, stratified);
    Ok(())
}

// As many positions as rows are opened, each within the phase's.
pub fn positions_placed()
    ensures { PositionsPlaced }
{}
