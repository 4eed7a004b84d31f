// Replays positions of the subgroup that another implementation computed, and points at the edges of both domains.
// A line is its kind, the modulus and numbers; an answer is 0 where it is a refusal, else 1 and what is told:
// `capacity` the largest log size of the subgroup; `position` log, index and the element; `point` log, m, index and the answer of the subgroup with its coordinates;
// `list` count, step and the answer, with the log size, to the list of the multiples of step;
// `element` count, step, log, m, index and that list's answer; `repeat` count, i and j: the list of numbers with the one at i also at j is refused.
#![tactic(auto)]

use configuration::whir_parameters::SecurityAssumption;
use domain::WhirDomain;
use domain::listed::ListedDomain;
use domain::query::{Limit, WhirQueryPoint};
use domain::subgroup::SubgroupDomain;
use domain::two_adic::TwoAdicField;
use field::residue::Residue;
use field::{BaseField, Field};
use std::alloc::{AllocError, Global};
use std::str::FromStr;
use thiserror::Error;

// What a line asks of a domain.
#[derive(Clone, Copy, Debug, PartialEq, Eq)]
enum Kind {
    Capacity,
    Position,
    Point,
    List,
    Element,
    Repeat,
}

// A word that is no kind.
#[derive(Clone, Copy, Debug, PartialEq, Eq, Error)]
#[error("the line has no kind")]
struct UnknownKind;

impl FromStr for Kind {
    type Err = UnknownKind;

    fn from_str(word: &str) -> Result<Kind, UnknownKind> {
        match word {
            "capacity" => Ok(Kind::Capacity),
            "position" => Ok(Kind::Position),
            "point" => Ok(Kind::Point),
            "list" => Ok(Kind::List),
            "element" => Ok(Kind::Element),
            "repeat" => Ok(Kind::Repeat),
            _ => Err(UnknownKind),
        }
    }
}

// A queried position, with the number of variables of its point.
#[derive(Clone, Copy, Debug, PartialEq, Eq)]
struct Place {
    log: usize,
    m: usize,
    index: usize,
}

impl Place {
    fn new(log: u32, m: u32, index: u32) -> Place {
        Place {
            log: log as usize,
            m: m as usize,
            index: index as usize,
        }
    }
}

// What a domain says of itself.
#[derive(Clone, Copy, Debug, PartialEq, Eq)]
struct Traits {
    capacity: u32,
    id: &'static [u8],
    strata: bool,
    capacity_bound: bool,
}

// A point told as one element has it for its last coordinate.
fn told_agrees<F: BaseField>(
    answer: Result<WhirQueryPoint<F>, Limit>,
    coordinates: &[u32],
) -> bool {
    match (answer, coordinates.last()) {
        (Ok(WhirQueryPoint::Univariate(v)), Some(last)) => v.number() == *last,
        (Ok(_), _) => true,
        (Err(_), _) => false,
    }
}

// Coordinate j of a point is told, or refused where none is wanted.
fn coordinate_agrees<F: BaseField, D: WhirDomain<F>>(
    domain: &D,
    place: Place,
    j: usize,
    want: Option<u32>,
) -> bool {
    let answer = domain.query_coordinate(place.log, place.m, place.index, j);
    answer.ok().map(|x| x.number()) == want
}

fn point_agrees<F: BaseField, D: WhirDomain<F>>(domain: &D, place: Place, want: &[u32]) -> bool {
    let answer = domain.query_point(place.log, place.m, place.index);
    match want {
        [0] => answer.is_err() && coordinate_agrees(domain, place, 0, None),
        // Each coordinate is told, and none past the last.
        [1, coordinates @ ..] => {
            told_agrees(answer, coordinates)
                && coordinates.len() == place.m
                && (0..=place.m).all(|j| coordinate_agrees(
                    domain,
                    place,
                    j,
                    coordinates.get(j).copied(),
                ))
        }
        _ => false,
    }
}

fn traits_agree<F: BaseField, D: WhirDomain<F>>(domain: &D, traits: Traits) -> bool {
    domain.max_log_domain_size() == traits.capacity as usize
        && domain.protocol_id() == traits.id
        && domain.stratified_queries() == traits.strata
        && domain.supports_security_assumption(SecurityAssumption::JohnsonBound)
        && domain.supports_security_assumption(SecurityAssumption::CapacityBound)
            == traits.capacity_bound
}

fn capacity_agrees<F: TwoAdicField>(capacity: u32) -> bool {
    let traits = Traits {
        capacity,
        id: b"",
        strata: false,
        capacity_bound: true,
    };
    traits_agree::<F, SubgroupDomain>(&SubgroupDomain, traits)
}

fn position_agrees<F: TwoAdicField>(log: u32, index: u32, value: u32) -> bool {
    let answer: Result<WhirQueryPoint<F>, Limit> = SubgroupDomain.query_point(
        log as usize,
        0,
        index as usize,
    );
    match answer {
        Ok(WhirQueryPoint::Univariate(v)) => v.number() == value,
        _ => false,
    }
}

fn multiples<F: BaseField>(heap: Global, count: u32, step: u32) -> Result<Vec<F>, AllocError> {
    (0..count)
        .map(|k| F::from_word(k.wrapping_mul(step)))
        .collect(heap)
}

fn list_agrees<F: BaseField>(list: &[F], want: &[u32]) -> bool {
    match (ListedDomain::new(list), want) {
        (Ok(domain), [1, log]) => {
            let traits = Traits {
                capacity: *log,
                id: b"list",
                strata: true,
                capacity_bound: false,
            };
            traits_agree::<F, ListedDomain<F>>(&domain, traits)
        }
        (Err(_), [0]) => true,
        _ => false,
    }
}

fn element_agrees<F: BaseField>(list: &[F], place: Place, want: &[u32]) -> bool {
    ListedDomain::new(list).is_ok_and(|domain| point_agrees::<F, ListedDomain<F>>(
        &domain, place, want,
    ))
}

fn repeat_agrees<F: BaseField>(list: &mut [F], i: u32, j: u32) -> bool {
    let Some(x) = list.get(i as usize).copied() else {
        return false;
    };
    let Some(place) = list.get_mut(j as usize) else {
        return false;
    };
    *place = x;
    list_agrees(list, &[0])
}

// Kept: a match on the kind of a line, one arm each, says what is compared; a closure for each kind would say no more.
fn agrees<F: TwoAdicField>(heap: Global, kind: Kind, numbers: &[u32]) -> anyhow::Result<bool> {
    Ok(match (kind, numbers) {
        (Kind::Capacity, [capacity]) => capacity_agrees::<F>(*capacity),
        (Kind::Position, [log, index, value]) => position_agrees::<F>(*log, *index, *value),
        (Kind::Point, [log, m, index, want @ ..]) => {
            let place = Place::new(*log, *m, *index);
            point_agrees::<F, SubgroupDomain>(&SubgroupDomain, place, want)
        }
        (Kind::List, [count, step, want @ ..]) => {
            let list: Vec<F> = multiples(heap, *count, *step)?;
            list_agrees(&list, want)
        }
        (Kind::Element, [count, step, log, m, index, want @ ..]) => {
            let list: Vec<F> = multiples(heap, *count, *step)?;
            element_agrees(&list, Place::new(*log, *m, *index), want)
        }
        (Kind::Repeat, [count, i, j]) => {
            let mut list: Vec<F> = multiples(heap, *count, 1)?;
            repeat_agrees(&mut list, *i, *j)
        }
        _ => false,
    })
}

fn case_agrees(heap: Global, kind: Kind, numbers: &[u32]) -> anyhow::Result<bool> {
    match numbers {
        [257, numbers @ ..] => agrees::<Residue<257>>(heap, kind, numbers),
        [65537, numbers @ ..] => agrees::<Residue<65537>>(heap, kind, numbers),
        _ => Ok(false),
    }
}

// Whether a line's answer is ours; a line with no kind has none.
fn line_agrees(heap: Global, line: &str) -> anyhow::Result<bool> {
    let mut words = line.split_whitespace();
    let kind = words.next().unwrap_or("").parse::<Kind>();
    let numbers: Vec<u32> = words
        .map(|word| -> anyhow::Result<u32> { Ok(word.parse::<u32>()?) })
        .try_collect(heap)?;
    match kind {
        Ok(kind) => case_agrees(heap, kind, &numbers),
        Err(UnknownKind) => Ok(false),
    }
}

// Kept: each program of stored lines counts them by itself: a loop for all would be a library's function that calls a closure, which is proved only
// under a `requires`, and no public function has one; what is left to share are two counters.
fn main(rt: HostRuntime) -> anyhow::Result<()> {
    let mut count = 0u64;
    let mut agree = 0u64;
    for line in rt.lines(rt.alloc()) {
        let line = line?;
        count = count.saturating_add(1);
        if line_agrees(rt.alloc(), line.as_str())? {
            agree = agree.saturating_add(1);
        } else {
            println!(rt; "differs: {line}")?;
        }
    }
    println!(rt; "{count} lines, {agree} agree")?;
    Ok(())
}
