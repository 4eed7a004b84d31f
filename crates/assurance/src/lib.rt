//! What an answer of the verification assures.
#![tactic(auto)]

ghost use Rattle.std.specs.Prelude.{ℕ, List};
ghost use Rattle.configuration.specs.Numbers.{Numbers};
ghost use Rattle.multilinear.specs.declared.order.VariableOrder.{VariableOrder};
ghost use Rattle.sponge.specs.Play.{Rules};
ghost use Rattle.verification.specs.Drawing.{Drawing};
ghost use Rattle.verification.specs.Setting.{setting, Inputs};
ghost use Rattle.assurance.specs.Accepted.{AcceptedOrAccident};
ghost use Rattle.assurance.specs.Whole.{WholeNeverAlike, AcceptedPointLong};
ghost use Rattle.assurance.specs.Honest.{HonestAccepted};
ghost use Rattle.assurance.specs.History.{Calls, CallsArePlays, EveryVerificationStands};

use commit::OpeningScheme;
use domain::WhirDomain;
use field::{BaseField, ExtensionField};
use sponge::Sponge;

/// Calls on a sponge before a verification: any plays, one after another.
pub trait Earlier {
    ghost calls: { Calls };
}

/// No good proof is lost: an honest proof is accepted, from whatever list the sponge holds.
pub fn honest_accepted<F: BaseField, E: ExtensionField<F>, D: WhirDomain<F>, O: OpeningScheme<F>>(
    domain: &D,
    scheme: &O,
)
    ensures { (N : Numbers) (o : VariableOrder) (w : Drawing F) → HonestAccepted (setting N o F.Field.ops E.Field.ops E.PartialEq.eq F.BaseField.numbering E.ExtensionField.extension w (D.WhirDomain.meaning domain.now) (O.OpeningScheme.meaning scheme.now)) (O.OpeningScheme.commits scheme.now) }
{
    domain.keeps_distance::<E>();
}

/// A wrong yes shows its accident: of an accepted proof every claim is true of the committed table, or an accident is shown.
/// Where a phase draws no positions no tables are alike; and an accepted point has a coordinate for each variable.
pub fn accepted_or_accident<
    F: BaseField,
    E: ExtensionField<F>,
    D: WhirDomain<F>,
    O: OpeningScheme<F>,
>(domain: &D, scheme: &O)
    ensures shown { (N : Numbers) (o : VariableOrder) (w : Drawing F) → AcceptedOrAccident (setting N o F.Field.ops E.Field.ops E.PartialEq.eq F.BaseField.numbering E.ExtensionField.extension w (D.WhirDomain.meaning domain.now) (O.OpeningScheme.meaning scheme.now)) (O.OpeningScheme.commits scheme.now) }
    ensures whole { (N : Numbers) (o : VariableOrder) (w : Drawing F) (m : Rules) (s : List ℕ) (I : Inputs F E O.Commitment O.Node) → WholeNeverAlike (setting N o F.Field.ops E.Field.ops E.PartialEq.eq F.BaseField.numbering E.ExtensionField.extension w (D.WhirDomain.meaning domain.now) (O.OpeningScheme.meaning scheme.now)) m s I }
    ensures long { (N : Numbers) (o : VariableOrder) (w : Drawing F) → AcceptedPointLong (setting N o F.Field.ops E.Field.ops E.PartialEq.eq F.BaseField.numbering E.ExtensionField.extension w (D.WhirDomain.meaning domain.now) (O.OpeningScheme.meaning scheme.now)) }
{
    domain.keeps_distance::<E>();
}

/// Both, and the decision, after any calls on a new sponge; and observing, drawing and verifying are such calls.
pub fn every_verification_stands<
    F: BaseField,
    E: ExtensionField<F>,
    D: WhirDomain<F>,
    O: OpeningScheme<F>,
    S: Sponge,
    H: Earlier,
>(domain: &D, scheme: &O)
    ensures stands { (N : Numbers) (o : VariableOrder) (w : Drawing F) → EveryVerificationStands (setting N o F.Field.ops E.Field.ops E.PartialEq.eq F.BaseField.numbering E.ExtensionField.extension w (D.WhirDomain.meaning domain.now) (O.OpeningScheme.meaning scheme.now)) (O.OpeningScheme.commits scheme.now) S.Sponge.rules S.Sponge.fresh H.Earlier.calls }
    ensures calls { (N : Numbers) (o : VariableOrder) (w : Drawing F) → CallsArePlays (setting N o F.Field.ops E.Field.ops E.PartialEq.eq F.BaseField.numbering E.ExtensionField.extension w (D.WhirDomain.meaning domain.now) (O.OpeningScheme.meaning scheme.now)) S.Sponge.rules }
{
    domain.keeps_distance::<E>();
}
