// Replays weights, table values, expansions and sumcheck rounds that another implementation computed. A line is its kind, the modulus,
// the degree D, for all but a round the number of variables n, and then elements of D coefficients each, the last ones the answer:
// `eq` and `select` two points, `value` 2^n values and a point, `expand` an element with n for an answer, `round` claim, h0, h2 and r.
#![tactic(auto)]

use argument::claim_after;
use field::bytes::from_numbers;
use field::pair::Pair;
use field::residue::Residue;
use field::{BaseField, ExtensionField, Field};
use multilinear::evaluation::{evaluate, value_at};
use multilinear::order::VariableOrder;
use multilinear::point::Point;
use multilinear::weight::{eq_at, expand_from_univariate, select_at};
use std::alloc::{AllocError, Global};
use std::str::FromStr;
use thiserror::Error;

#[derive(Clone, Copy, Debug, PartialEq, Eq)]
enum Kind {
    Eq,
    Select,
    Value,
    Expand,
    Round,
}

// Why a line was not compared.
#[derive(Debug, Drop, Error)]
enum LineError {
    #[error("the line is no case")]
    Unreadable,
    #[error(transparent)]
    OutOfMemory(#[from(alloc)] AllocError),
}

impl FromStr for Kind {
    type Err = LineError;

    fn from_str(word: &str) -> Result<Self, LineError> {
        match word {
            "eq" => Ok(Kind::Eq),
            "select" => Ok(Kind::Select),
            "value" => Ok(Kind::Value),
            "expand" => Ok(Kind::Expand),
            "round" => Ok(Kind::Round),
            _ => Err(LineError::Unreadable),
        }
    }
}

// What a line says behind its modulus and degree. A round has no number of variables.
#[derive(Clone, Copy, Debug, PartialEq, Eq)]
struct Case<'a> {
    kind: Kind,
    variables: Option<usize>,
    coefficients: &'a [u32],
}

// The elements of a case, with its number of variables, and as many elements to work in.
#[derive(Debug, Drop)]
struct Replay<E> {
    variables: Option<usize>,
    elements: Vec<E>,
    scratch: Vec<E>,
}

impl<E: Field> Replay<E> {
    fn weight_agrees<W: Fn(&[E], &Point<E>) -> Option<E>>(&self, weight_at: W) -> Option<bool>
        requires { W.IsAlwaysCallable weight_at }
    {
        let variables = self.variables?;
        let (point, rest) = self.elements.split_at_checked(variables)?;
        let (x, rest) = rest.split_at_checked(variables)?;
        let [want] = rest else { return None };
        let answer = weight_at(point, &Point::new(x, VariableOrder::Prefix));
        Some(answer == Some(*want))
    }

    // Read in place, and in a buffer that begins with the table, the value is the same.
    fn value_agrees(&mut self) -> Option<bool> {
        let (want, rest) = self.elements.split_last()?;
        let (table, draws) = rest.split_at_checked(rest.len().checked_sub(self.variables?)?)?;
        let point = Point::new(draws, VariableOrder::Prefix);
        let want = Some(*want);
        Some(value_at(table, &point) == want && evaluate(&mut self.scratch, &point) == want)
    }

    fn expansion_agrees(&mut self) -> Option<bool> {
        let (v, want) = self.elements.split_first()?;
        let (out, _rest) = self.scratch.split_at_mut_checked(self.variables?)?;
        expand_from_univariate(*v, out);
        Some(&*out == want)
    }

    fn round_agrees(&self) -> Option<bool> {
        match self.elements.as_slice() {
            [c, h0, h2, r, want] => Some(claim_after(*c, *h0, *h2, *r) == *want),
            _ => None,
        }
    }

    // Kept: a match on the kind of a line, one arm each, says what is compared; a closure for each kind would say no more.
    fn holds(&mut self, kind: Kind) -> Option<bool> {
        match kind {
            Kind::Eq => self.weight_agrees(eq_at),
            Kind::Select => self.weight_agrees(select_at),
            Kind::Value => self.value_agrees(),
            Kind::Expand => self.expansion_agrees(),
            Kind::Round => self.round_agrees(),
        }
    }
}

fn agrees<F: BaseField, E: ExtensionField<F>>(
    heap: Global,
    case: &Case,
) -> Result<bool, LineError> {
    let elements: Vec<E> = case
        .coefficients
        .chunks(E::degree().max(1))
        .map(|x| from_numbers::<F, E>(x).ok_or(LineError::Unreadable))
        .try_collect(heap)?;
    let scratch = elements.clone()?;
    let mut replay = Replay {
        variables: case.variables,
        elements,
        scratch,
    };
    replay.holds(case.kind).ok_or(LineError::Unreadable)
}

// Kept: one arm for each degree names its extension, here and in two other programs: one match for all would take a trait with a generic function,
// and a type with an impl of it in each program, in place of these lines.
fn agrees_over<F: BaseField>(heap: Global, degree: u32, case: &Case) -> Result<bool, LineError> {
    match degree {
        1 => agrees::<F, F>(heap, case),
        2 => agrees::<F, Pair<F>>(heap, case),
        4 => agrees::<F, Pair<Pair<F>>>(heap, case),
        8 => agrees::<F, Pair<Pair<Pair<F>>>>(heap, case),
        _ => Err(LineError::Unreadable),
    }
}

fn case_agrees(heap: Global, kind: Kind, numbers: &[u32]) -> Result<bool, LineError> {
    let (modulus, degree, variables, coefficients) = match (kind, numbers) {
        (Kind::Round, [modulus, degree, coefficients @ ..]) => {
            (*modulus, *degree, None, coefficients)
        }
        (_, [modulus, degree, n, coefficients @ ..]) => {
            (*modulus, *degree, Some(*n as usize), coefficients)
        }
        _ => return Err(LineError::Unreadable),
    };
    let case = Case {
        kind,
        variables,
        coefficients,
    };
    match modulus {
        257 => agrees_over::<Residue<257>>(heap, degree, &case),
        65537 => agrees_over::<Residue<65537>>(heap, degree, &case),
        _ => Err(LineError::Unreadable),
    }
}

// Whether a line's answer is ours; a line that is no case has none.
fn line_agrees(heap: Global, line: &str) -> anyhow::Result<bool> {
    let mut words = line.split_whitespace();
    let kind = words.next().unwrap_or("").parse::<Kind>();
    let numbers: Vec<u32> = words
        .map(|word| -> anyhow::Result<u32> { Ok(word.parse::<u32>()?) })
        .try_collect(heap)?;
    let Ok(kind) = kind else { return Ok(false) };
    match case_agrees(heap, kind, &numbers) {
        Err(LineError::Unreadable) => Ok(false),
        answer => Ok(answer?),
    }
}

// Kept: each program of stored lines counts them by itself: a loop for all would be a library's function that calls a closure, which is proved only
// under a `requires`, and no public function has one; what is left to share are two counters.
fn main(rt: HostRuntime) -> anyhow::Result<()> {
    let mut count = 0u64;
    let mut agree = 0u64;
    for line in rt.lines(rt.alloc()) {
        let line = line?;
        count = count.saturating_add(1);
        if line_agrees(rt.alloc(), line.as_str())? {
            agree = agree.saturating_add(1);
        }
    }
    println!(rt; "{count} lines, {agree} agree")?;
    Ok(())
}
