//! The verification as one play, what it decides, and why it refuses.
#![tactic(auto)]

ghost use Rattle.std.specs.Prelude.{ℕ, List};
ghost use Rattle.configuration.specs.Numbers.{Numbers};
ghost use Rattle.multilinear.specs.declared.order.VariableOrder.{VariableOrder};
ghost use Rattle.sponge.specs.Play.{Play, Rules};
ghost use Rattle.verification.specs.Drawing.{Drawing, by_word};
ghost use Rattle.verification.specs.Setting.{setting};
ghost use Rattle.verification.specs.Checks.{AnsweredByFirstFailing};
ghost use Rattle.verification.specs.Decision.{AcceptsByDecision};
ghost use Rattle.verification.specs.Described.{AcceptedFollowsPattern};
ghost use Rattle.verification.specs.Shaped.{ReadingsShaped};
ghost use Rattle.verification.specs.Observed.{AcceptedObserves, DrawsElements};

use commit::OpeningScheme;
use domain::WhirDomain;
use field::{BaseField, ExtensionField};

/// A verification answers what the first check says that fails.
pub fn refused_by_first_failing<
    F: BaseField,
    E: ExtensionField<F>,
    D: WhirDomain<F>,
    O: OpeningScheme<F>,
>(domain: &D, scheme: &O)
    ensures { (N : Numbers) (o : VariableOrder) (w : Drawing F) → AnsweredByFirstFailing (setting N o F.Field.ops E.Field.ops E.PartialEq.eq F.BaseField.numbering E.ExtensionField.extension w (D.WhirDomain.meaning domain.now) (O.OpeningScheme.meaning scheme.now)) }
{}

/// A verification accepts exactly where the decision holds of what it reads.
pub fn accepted_by_decision<
    F: BaseField,
    E: ExtensionField<F>,
    D: WhirDomain<F>,
    O: OpeningScheme<F>,
>(domain: &D, scheme: &O)
    ensures { (N : Numbers) (o : VariableOrder) (w : Drawing F) → AcceptsByDecision (setting N o F.Field.ops E.Field.ops E.PartialEq.eq F.BaseField.numbering E.ExtensionField.extension w (D.WhirDomain.meaning domain.now) (O.OpeningScheme.meaning scheme.now)) }
{}

/// What is so of every reading: the number of challenges and samples, and the positions of each phase.
pub fn readings_shaped<F: BaseField, E: ExtensionField<F>, D: WhirDomain<F>, O: OpeningScheme<F>>(
    domain: &D,
    scheme: &O,
)
    ensures { (N : Numbers) (o : VariableOrder) (w : Drawing F) → ReadingsShaped (setting N o F.Field.ops E.Field.ops E.PartialEq.eq F.BaseField.numbering E.ExtensionField.extension w (D.WhirDomain.meaning domain.now) (O.OpeningScheme.meaning scheme.now)) }
{}

/// Where a verification accepts, its calls on the sponge are those that the pattern describes, and the bytes that it observes are those of
/// the proof; and elements are drawn as they are drawn everywhere.
pub fn accepted_follows_pattern<
    F: BaseField,
    E: ExtensionField<F>,
    D: WhirDomain<F>,
    O: OpeningScheme<F>,
>(domain: &D, scheme: &O)
    ensures pattern { (N : Numbers) (o : VariableOrder) → AcceptedFollowsPattern (setting N o F.Field.ops E.Field.ops E.PartialEq.eq F.BaseField.numbering E.ExtensionField.extension (by_word F.BaseField.numbering) (D.WhirDomain.meaning domain.now) (O.OpeningScheme.meaning scheme.now)) }
    ensures observed { (N : Numbers) (o : VariableOrder) → AcceptedObserves (setting N o F.Field.ops E.Field.ops E.PartialEq.eq F.BaseField.numbering E.ExtensionField.extension (by_word F.BaseField.numbering) (D.WhirDomain.meaning domain.now) (O.OpeningScheme.meaning scheme.now)) }
    ensures elements { (N : Numbers) (o : VariableOrder) (m : Rules) (s : List ℕ) → DrawsElements (setting N o F.Field.ops E.Field.ops E.PartialEq.eq F.BaseField.numbering E.ExtensionField.extension (by_word F.BaseField.numbering) (D.WhirDomain.meaning domain.now) (O.OpeningScheme.meaning scheme.now)) m s }
{}
