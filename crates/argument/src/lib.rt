//! The argument over its numbers alone: sumcheck, batching by powers, and the two halves of the theorem about a whole run, of every
//! reading (claims, challenges, opened rows with their points, final polynomial), under either variable order.
#![tactic(auto)]

ghost use Rattle.std.specs.Prelude.{◌≡◌};
ghost use Rattle.ring.specs.Polynomials.{value as at};
ghost use Rattle.argument.specs.Sumcheck.{message};
ghost use Rattle.argument.specs.Batching.{TrueAfterMeansTrueBefore, TrueMessagesLead, BatchTellsClaims, RoundTellsClaims, PointsAndPositionsAreClaims};
ghost use Rattle.argument.specs.Soundness.{AcceptedMeansTrue, AllOpenedNeverAlike, DistinctElementsTellApart};
ghost use Rattle.argument.specs.Completeness.{HonestMeansAccepted};
ghost use Rattle.argument.specs.Readings.{Readings};

use field::Field;

// The claim after a sumcheck message h0, h2 and its challenge r.
pub fn claim_after<F: Field>(claim: F, h0: F, h2: F, r: F) -> F
    ensures { result ≡ at F.Field.ops (message F.Field.ops h0 h2 claim) r }
{
    let h1 = claim.sub(h0.add(h0)).sub(h2);
    h0.add(r.mul(h1.add(r.mul(h2))))
}

// Steps of a sumcheck, and claims by the powers of a challenge.
pub fn sumcheck_stands<F: Field>()
    ensures binds { TrueAfterMeansTrueBefore F.Field.ops }
    ensures leads { TrueMessagesLead F.Field.ops }
    ensures claims { BatchTellsClaims F.Field.ops }
    ensures round { RoundTellsClaims F.Field.ops }
    ensures lawful { PointsAndPositionsAreClaims F.Field.ops }
{}

// A reading that is accepted though a claim is false shows its accident.
pub fn soundness_stands<F: Field>()
    ensures shown { AcceptedMeansTrue F.Field.ops }
    ensures saturated { AllOpenedNeverAlike F.Field.ops }
    ensures apart { DistinctElementsTellApart F.Field.ops }
{}

// A reading that follows the honest rule is accepted.
pub fn completeness_stands<F: Field>()
    ensures { HonestMeansAccepted F.Field.ops }
{}

// Sample readings of the definitions, over the numbers below 257.
pub fn readings_stand()
    ensures { Readings }
{}
