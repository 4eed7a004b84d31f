// The steps of a run as they are described, and the bytes of each.
ghost use Rattle.std.specs.Prelude.{◌≡◌};
ghost use Rattle.transcript.specs.Written.{written};
ghost use Rattle.transcript.specs.Steps.{label_bytes, step_bytes, step_of, marker, commitment_step, drawn_step, sent_step, grinding_step, indices_step};

use crate::piece::Piece;
use std::fmt;

// Whether a step opens or closes a bracket, or stands alone.
#[derive(Clone, Copy, PartialEq, Eq, Debug)]
pub enum Hierarchy {
    Begin,
    End,
    Atomic,
}

// Who speaks, and to what end.
#[derive(Clone, Copy, PartialEq, Eq, Debug)]
pub enum Kind {
    Message,
    Challenge,
    Pow,
    Protocol,
}

// What is said.
#[derive(Clone, Copy, PartialEq, Eq, Debug)]
pub enum Value {
    Marker,
    Opaque,
    Base,
    Extension,
    Bits,
}

// The step's name.
#[derive(Clone, Copy, PartialEq, Eq, Debug)]
pub enum Label {
    InitialFold,
    Commitment,
    OodPoint,
    OodAnswer,
    QueryPow,
    QueryIndices,
    RoundBatching,
    RoundFold,
    FinalPoly,
    FinalQueryPow,
    FinalQueryIndices,
    FinalFold,
}

// One step. The width is the degree of an extension element or the bits of an index, else 0; the length is 0 for a single value
// and for a marker.
//
// Kept: both are the numbers that the step's bytes hold, 0 among them, so an `Option` would be turned into them again.
#[derive(Clone, Copy, PartialEq, Eq, Debug)]
pub struct Interaction {
    pub hierarchy: Hierarchy,
    pub kind: Kind,
    pub value: Value,
    pub width: usize,
    pub length: usize,
    pub label: Label,
}

impl Label {
    // The name's text.
    #[tactic(auto, unfolding(crate::specs::Steps::label_bytes))]
    pub fn as_str(self) -> &'static str
        ensures { result.now ≡ label_bytes self }
    {
        match self {
            Label::InitialFold => "initial_fold",
            Label::Commitment => "commitment",
            Label::OodPoint => "ood_point",
            Label::OodAnswer => "ood_answer",
            Label::QueryPow => "query_pow",
            Label::QueryIndices => "query_indices",
            Label::RoundBatching => "round_batching",
            Label::RoundFold => "round_fold",
            Label::FinalPoly => "final_poly",
            Label::FinalQueryPow => "final_query_pow",
            Label::FinalQueryIndices => "final_query_indices",
            Label::FinalFold => "final_fold",
        }
    }
}

impl Interaction {
    // A step that stands alone, with no width, and of a single value.
    fn atomic(kind: Kind, value: Value, label: Label) -> Interaction
        ensures { result ≡ record { hierarchy = Hierarchy.Atomic; kind = kind; value = value; width = 0; length = 0; label = label } }
    {
        Interaction {
            hierarchy: Hierarchy::Atomic,
            kind,
            value,
            width: 0,
            length: 0,
            label,
        }
    }

    // The opener or closer of a sumcheck that is delegated.
    pub fn marker(hierarchy: Hierarchy, label: Label) -> Interaction
        ensures { step_of result ≡ marker hierarchy label }
    {
        Interaction {
            hierarchy,
            ..Interaction::atomic(Kind::Protocol, Value::Marker, label)
        }
    }

    // A round's commitment, which the opening scheme encodes.
    pub fn commitment() -> Interaction
        ensures { step_of result ≡ commitment_step }
    {
        Interaction::atomic(Kind::Message, Value::Opaque, Label::Commitment)
    }

    // One extension element is drawn.
    pub fn drawn(degree: usize, label: Label) -> Interaction
        ensures { step_of result ≡ drawn_step degree label }
    {
        Interaction {
            width: degree,
            ..Interaction::atomic(Kind::Challenge, Value::Extension, label)
        }
    }

    // Extension elements are sent: one where the length is 0.
    pub fn sent(degree: usize, length: usize, label: Label) -> Interaction
        ensures { step_of result ≡ sent_step degree length label }
    {
        Interaction {
            width: degree,
            length,
            ..Interaction::atomic(Kind::Message, Value::Extension, label)
        }
    }

    // A grinding witness, which is a base element.
    pub fn pow(bits: usize, label: Label) -> Interaction
        ensures { step_of result ≡ grinding_step bits label }
    {
        Interaction {
            length: bits,
            ..Interaction::atomic(Kind::Pow, Value::Base, label)
        }
    }

    // Indices are drawn, each of so many bits.
    pub fn uniform_bits(width: usize, length: usize, label: Label) -> Interaction
        ensures { step_of result ≡ indices_step width length label }
    {
        Interaction {
            width,
            length,
            ..Interaction::atomic(Kind::Challenge, Value::Bits, label)
        }
    }

    // The bytes that stand for the step in the separator.
    #[tactic(auto, using(crate::proofs::Writing::eight_bytes, crate::proofs::Writing::label_short), unfolding(crate::specs::Steps::step_bytes))]
    pub fn encode(&self) -> Piece
        ensures { written result ≡ step_bytes (step_of self.now) }
    {
        let mut piece = Piece::new();
        piece.push(0);
        piece.push(self.hierarchy as u8);
        piece.push(self.kind as u8);
        piece.push(self.value as u8);
        piece.append(&self.width.to_be_bytes());
        piece.append(&self.length.to_be_bytes());
        piece.append(self.label.as_str().as_bytes());
        piece
    }
}

// The kinds' names, the two numbers, and the step's name.
impl fmt::Display for Interaction {
    fn fmt<W: fmt::Write>(&self, f: &mut fmt::Formatter<W>) -> fmt::Result {
        write!(
            f,
            "{:?} {:?} {:?} {} {} {}",
            self.hierarchy,
            self.kind,
            self.value,
            self.width,
            self.length,
            self.label.as_str()
        )
    }
}
