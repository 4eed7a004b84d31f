// Openings at their edges, phases, and what stands at the end of a proof's lists.
use crate::WhirVerifier;
use crate::parts::{opened_in, sent_in};
use crate::phases::{PhaseShape, phase_shape};
use crate::rows::{Opened, OpenedRows};
use commit::kept::KeptTables;
use commit::shelf::Shelf;
use configuration::whir::WhirConfig;
use configuration::whir_parameters::{RoundConfig, TerminalBudget, WhirNumbers};
use domain::WhirDomain;
use domain::subgroup::SubgroupDomain;
use errors::{OpeningFault, VerifierError};
use field::pair::Pair;
use field::residue::Residue;
use field::{BaseField, ExtensionField};
use multilinear::order::VariableOrder;
use parameters::folding::FoldingFactor;
use proof::Place;
use proof::whir_proof::{ProofLists, ProofParts, QueryOpenings, RowKind, SumcheckData, WhirProof};
use std::alloc::Global;
use std::marker::PhantomData;
use std::test::Fail;

type Base = Residue<257>;

type Above = Pair<Base>;

type Answer<E> = Result<(), VerifierError<E>>;

// Of eight variables each of two phases folds one; rows are two elements wide.
fn small(heap: Global) -> Result<WhirConfig, Fail> {
    let round = RoundConfig {
        pow_bits: 0,
        folding_pow_bits: 0,
        num_queries: 2,
        ood_samples: 0,
        num_variables: 7,
        folding_factor: 1,
        log_inv_rate: 0,
        domain_size: 256,
        log_folded_domain_size: 7,
    };
    let numbers = WhirNumbers {
        num_variables: 8,
        max_log_domain_size: 8,
        domain_id: Vec::new(heap),
        stratified_queries: false,
        starting_log_inv_rate: 0,
        round_log_inv_rates: Vec::new(heap),
        folding_factor: FoldingFactor::Constant(1),
        soundness: 0,
        security_level: 1,
        pow_budget: 0,
        folding_schedule: [1, 1].to_vec(heap)?,
        round_parameters: [round].to_vec(heap)?,
        commitment_ood_samples: 0,
        starting_folding_pow_bits: 0,
        terminal: TerminalBudget {
            num_queries: 2,
            pow_bits: 0,
        },
        final_sumcheck_rounds: 6,
        final_folding_pow_bits: 0,
    };
    Ok(WhirConfig::new(heap, numbers)?)
}

// What openings are checked by.
#[derive(Drop)]
struct Given<'a, F, D> {
    config: &'a WhirConfig,
    domain: &'a D,
    tables: KeptTables<'a, F>,
}

impl<'a, F: BaseField, D: WhirDomain<F>> Given<'a, F, D> {
    // The answer to an opening of the table that is held.
    fn answer<E: ExtensionField<F>>(
        &self,
        phase: usize,
        indices: &[usize],
        opened: &Opened<F, E, ()>,
    ) -> Result<Answer<E>, Fail> {
        let config = self.config;
        if config.numbers.max_log_domain_size > self.domain.max_log_domain_size() {
            return Err("the domain is too small".into());
        }
        if phase > config.n_rounds() {
            return Err("there is no such phase".into());
        }
        let verifier = WhirVerifier {
            config,
            domain: self.domain,
            scheme: &self.tables,
            variable_order: VariableOrder::Prefix,
            base: PhantomData,
            extension: PhantomData,
        };
        Ok(verifier.verify_merkle_proof(phase, &0, indices, opened))
    }

    fn answer_to_base<E: ExtensionField<F>>(
        &self,
        phase: usize,
        indices: &[usize],
        count: usize,
        elements: &[F],
    ) -> Result<Answer<E>, Fail> {
        let opened = Opened {
            count,
            rows: OpenedRows::Base(elements),
            paths: &[],
        };
        self.answer(phase, indices, &opened)
    }

    fn answer_to_extension<E: ExtensionField<F>>(
        &self,
        phase: usize,
        indices: &[usize],
        count: usize,
        elements: &[E],
    ) -> Result<Answer<E>, Fail> {
        let opened = Opened {
            count,
            rows: OpenedRows::Extension(elements),
            paths: &[],
        };
        self.answer(phase, indices, &opened)
    }
}

// The elements that are these numbers.
fn elements(heap: Global, numbers: &[u32]) -> Result<Vec<Base>, Fail> {
    let elements = numbers.iter().map(|number| Base::from_word(*number));
    Ok(elements.collect(heap)?)
}

// The elements above with these coefficients, two each.
fn elements_above(heap: Global, numbers: &[u32]) -> Result<Vec<Above>, Fail> {
    let (pairs, _) = numbers.as_chunks::<2>();
    let elements = pairs.iter().map(|[a, b]| Pair {
        a: Base::from_word(*a),
        b: Base::from_word(*b),
    });
    Ok(elements.collect(heap)?)
}

fn wrong(phase: usize, reason: OpeningFault) -> Answer<Above> {
    Err(VerifierError::MerkleProofInvalid {
        phase,
        position: 0,
        reason,
    })
}

fn miscounted(actual: usize) -> Answer<Above> {
    Err(VerifierError::StirQueryCountMismatch {
        round: 0,
        expected: 2,
        actual,
    })
}

#[test]
fn opens_base_rows(rt: HostRuntime) -> Result<(), Fail> {
    let config = small(rt.alloc())?;
    let values = elements(rt.alloc(), &[0, 1, 2, 3, 4, 5, 6, 7])?;
    let given = Given {
        config: &config,
        domain: &SubgroupDomain,
        tables: KeptTables {
            values: values.as_slice(),
            shelves: &[Shelf {
                start: 0,
                height: 4,
                width: 2,
            }],
        },
    };
    let refused = wrong(0, OpeningFault::Base);
    let cases: [(&str, &[usize], usize, &[u32], Answer<Above>); 9] = [
        ("as they are held", &[1, 3], 2, &[2, 3, 6, 7], Ok(())),
        ("one element short", &[1, 3], 2, &[2, 3, 6], refused),
        ("one element long", &[1, 3], 2, &[2, 3, 6, 7, 0], refused),
        ("another element", &[1, 3], 2, &[2, 3, 6, 8], refused),
        ("past the table", &[1, 4], 2, &[2, 3, 8, 9], refused),
        ("a row too few", &[1, 3], 1, &[2, 3], miscounted(1)),
        (
            "a row too many",
            &[1, 3],
            3,
            &[2, 3, 6, 7, 0, 1],
            miscounted(3),
        ),
        ("no rows", &[], 0, &[], Ok(())),
        ("no rows, one element", &[], 0, &[2], refused),
    ];
    for (label, indices, count, numbers, want) in cases {
        let rows = elements(rt.alloc(), numbers)?;
        let answer = given.answer_to_base(0, indices, count, rows.as_slice())?;
        assert_eq!(rt; answer, want, "{label}");
    }
    Ok(())
}

#[test]
fn opens_rows_above(rt: HostRuntime) -> Result<(), Fail> {
    let config = small(rt.alloc())?;
    let values = elements(rt.alloc(), &[0, 1, 2, 3, 4, 5, 6, 7])?;
    let given = Given {
        config: &config,
        domain: &SubgroupDomain,
        tables: KeptTables {
            values: values.as_slice(),
            shelves: &[Shelf {
                start: 0,
                height: 2,
                width: 4,
            }],
        },
    };
    let refused = wrong(1, OpeningFault::Extension);
    let misplaced = wrong(0, OpeningFault::Kind);
    let cases: [(&str, usize, &[u32], Answer<Above>); 5] = [
        ("as they are held", 1, &[4, 5, 6, 7, 0, 1, 2, 3], Ok(())),
        ("one element short", 1, &[4, 5, 6, 7, 0, 1], refused),
        (
            "one element long",
            1,
            &[4, 5, 6, 7, 0, 1, 2, 3, 0, 0],
            refused,
        ),
        ("coefficients turned", 1, &[5, 4, 6, 7, 0, 1, 2, 3], refused),
        (
            "in the first phase",
            0,
            &[4, 5, 6, 7, 0, 1, 2, 3],
            misplaced,
        ),
    ];
    for (label, phase, numbers, want) in cases {
        let rows = elements_above(rt.alloc(), numbers)?;
        let answer = given.answer_to_extension(phase, &[1, 0], 2, rows.as_slice())?;
        assert_eq!(rt; answer, want, "{label}");
    }
    let answer = given.answer_to_base(1, &[1, 0], 2, values.as_slice())?;
    assert_eq!(rt; answer, wrong(1, OpeningFault::Kind));
    Ok(())
}

#[test]
fn shapes_phases(rt: HostRuntime) -> Result<(), Fail> {
    let config = small(rt.alloc())?;
    let first = PhaseShape {
        fold: 1,
        log: 7,
        vars: 7,
    };
    let last = PhaseShape {
        fold: 1,
        log: 6,
        vars: 6,
    };
    for (phase, shape) in [(0, first), (1, last), (2, last), (usize::MAX, last)] {
        assert_eq!(rt; phase_shape(&config, phase), shape, "{phase}");
    }
    Ok(())
}

fn place(start: usize, length: usize) -> Place {
    Place { start, length }
}

fn openings(kind: RowKind, rows: Place) -> QueryOpenings {
    QueryOpenings {
        kind,
        count: 1,
        rows,
        paths: place(0, 0),
    }
}

// Of which kind rows are, and how many elements they have.
fn seen<F, E>(rows: &OpenedRows<F, E>) -> (RowKind, usize) {
    match rows {
        OpenedRows::Base(elements) => (RowKind::Base, elements.len()),
        OpenedRows::Extension(elements) => (RowKind::Extension, elements.len()),
    }
}

// How many elements of messages and of witnesses stand at a place of the lists, and the rows of both kinds.
fn standing<F: BaseField, E: ExtensionField<F>>(
    base: &[F],
    extension: &[E],
    at: Place,
) -> (usize, usize, (RowKind, usize), (RowKind, usize)) {
    let sumcheck = SumcheckData {
        polynomial_evaluations: at,
        pow_witnesses: at,
    };
    let proof = WhirProof::<F, E, u32, ()> {
        lists: ProofLists {
            base,
            extension,
            commitments: &[],
            nodes: &[],
        },
        parts: ProofParts {
            initial_ood_answers: at,
            initial_sumcheck: sumcheck,
            rounds: &[],
            final_poly: None,
            final_pow_witness: F::zero(),
            final_openings: openings(RowKind::Extension, at),
            final_sumcheck: None,
        },
    };
    let sent = sent_in(&proof, proof.parts.initial_sumcheck);
    let of_base = opened_in(&proof, &openings(RowKind::Base, at));
    let of_extension = opened_in(&proof, &proof.parts.final_openings);
    (
        sent.messages.len(),
        sent.witnesses.len(),
        seen(&of_base.rows),
        seen(&of_extension.rows),
    )
}

#[test]
fn reads_ends_of_lists(rt: HostRuntime) -> Result<(), Fail> {
    let base = elements(rt.alloc(), &[1, 2, 3])?;
    let extension = elements_above(rt.alloc(), &[1, 2, 3, 4, 5, 6])?;
    // From where, how many pairs or elements, and how many elements stand there, of pairs and singly.
    let cases = [
        (1, 1, 2, 1),
        (2, 1, 1, 1),
        (3, 1, 0, 0),
        (4, 1, 0, 0),
        (1, 0, 0, 0),
        (0, 1 << 63, 3, 3),
        (1, usize::MAX, 2, 2),
        (usize::MAX, usize::MAX, 0, 0),
    ];
    for (start, length, paired, single) in cases {
        let stands = standing(base.as_slice(), extension.as_slice(), place(start, length));
        let rows = (RowKind::Base, single);
        let rows_above = (RowKind::Extension, single);
        assert_eq!(rt; stands, (paired, single, rows, rows_above), "from {start}");
    }
    Ok(())
}
