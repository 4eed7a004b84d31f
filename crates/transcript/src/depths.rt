// The draws of a query phase as a sum of powers of two.
ghost use Rattle.std.specs.Prelude.{◌≡◌, IfOk};
ghost use Rattle.std.specs.Iterator.{YieldsFirst, item_count};
ghost use Rattle.transcript.specs.Depths.{depths, DepthsSum};

use std::alloc::{AllocError, Global};

// The set bits of a number, highest first.
#[derive(Clone, Copy, PartialEq, Eq, Debug)]
pub(crate) struct Depths(pub(crate) usize);

impl Iterator for Depths {
    type Item = usize;

    ghost next_gives = { YieldsFirst (λ s. depths s.0) };

    ghost remaining = { item_count (λ s. depths s.0) };

    #[tactic(auto, using(crate::proofs::Summing::no_depth, crate::proofs::Summing::first_depth, crate::proofs::Summing::fewer_left))]
    fn next(&mut self) -> Option<usize> {
        let depth = self.0.checked_ilog2()? as usize;
        self.0 -= 1 << depth;
        Some(depth)
    }
}

// Canonical power-of-two decomposition of a query count, deepest strata first.
pub fn query_summand_depths(heap: Global, draws: usize) -> Result<Vec<usize>, AllocError>
    ensures { IfOk result (λ ts. ts.items ≡ depths draws) }
{
    // as many as bits are set, so the list takes one block of the right size
    let mut summands = Vec::with_capacity(heap, draws.count_ones() as usize)?;
    summands.extend(Depths(draws))?;
    Ok(summands)
}

// The powers of the depths sum to the draws, the depths fall, and there are as many as bits are set.
pub fn depths_sum()
    ensures { DepthsSum }
{}
