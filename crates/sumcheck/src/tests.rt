// Counts of a sumcheck at their edges, and the places after a refusal.
use crate::errors::SumcheckError;
use crate::{Site, SumcheckSlices, verify_rounds};
use field::residue::Residue;
use field::{BaseField, ExtensionField};
use sponge::Sponge;
use sponge::trial::TrialSponge;

type Base = Residue<257>;

// The answer of the third sumcheck, from a new sponge, over elements with these numbers.
fn answer<F: BaseField, E: ExtensionField<F>>(
    pow_bits: u32,
    messages: &[E],
    witnesses: &[F],
    places: &mut [E],
) -> Result<E, SumcheckError> {
    let mut sponge = TrialSponge::make(());
    let sent = SumcheckSlices {
        messages,
        witnesses,
    };
    let site = Site { phase: 2, pow_bits };
    verify_rounds::<F, E, TrialSponge>(&mut sponge, site, &sent, E::one(), places)
}

fn messages_refused(expected: usize, actual: usize) -> Option<SumcheckError> {
    Some(SumcheckError::MessageCount {
        phase: 2,
        expected,
        actual,
    })
}

fn witnesses_refused(expected: usize, actual: usize) -> Option<SumcheckError> {
    Some(SumcheckError::WitnessCount {
        phase: 2,
        expected,
        actual,
    })
}

#[test]
fn counts_of_messages_at_their_edges(rt: HostRuntime) {
    let x = Base::from_word(5);
    let mut none = [x; 0];
    let mut one = [x];
    let mut two = [x; 2];
    // no round
    assert_eq!(rt;
        answer::<Base, Base>(0, &[], &[], &mut none),
        Ok(Base::from_word(1))
    );
    assert_eq!(rt;
        answer::<Base, Base>(3, &[], &[], &mut none),
        Ok(Base::from_word(1))
    );
    assert_eq!(rt;
        answer::<Base, Base>(0, &[x; 2], &[], &mut none).err(),
        messages_refused(0, 1)
    );
    // one too few, one too many, half a one
    assert_eq!(rt;
        answer::<Base, Base>(0, &[], &[], &mut one).err(),
        messages_refused(1, 0)
    );
    assert_eq!(rt;
        answer::<Base, Base>(0, &[x], &[], &mut one).err(),
        messages_refused(1, 0)
    );
    assert_eq!(rt;
        answer::<Base, Base>(0, &[x; 2], &[], &mut two).err(),
        messages_refused(2, 1)
    );
    assert_eq!(rt;
        answer::<Base, Base>(0, &[x; 3], &[], &mut two).err(),
        messages_refused(2, 1)
    );
    assert_eq!(rt;
        answer::<Base, Base>(0, &[x; 6], &[], &mut two).err(),
        messages_refused(2, 3)
    );
    // messages are counted before witnesses
    assert_eq!(rt;
        answer::<Base, Base>(0, &[x; 2], &[x], &mut two).err(),
        messages_refused(2, 1)
    );
    // nothing was written
    assert_eq!(rt; one, [x]);
    assert_eq!(rt; two, [x; 2]);
    // as many as rounds; an element after the last message is not read
    assert_eq!(rt; answer::<Base, Base>(0, &[x; 4], &[], &mut two).err(), None);
    let mut again = [x; 2];
    assert_eq!(rt;
        answer::<Base, Base>(0, &[x; 5], &[], &mut again).err(),
        None
    );
    assert_eq!(rt; again, two);
}

#[test]
fn counts_of_witnesses_at_their_edges(rt: HostRuntime) {
    let x = Base::from_word(5);
    let mut none = [x; 0];
    let mut two = [x; 2];
    // none is due, and one is there
    assert_eq!(rt;
        answer::<Base, Base>(0, &[], &[x], &mut none).err(),
        witnesses_refused(0, 1)
    );
    assert_eq!(rt;
        answer::<Base, Base>(3, &[], &[x], &mut none).err(),
        witnesses_refused(0, 1)
    );
    assert_eq!(rt;
        answer::<Base, Base>(0, &[x; 4], &[x], &mut two).err(),
        witnesses_refused(0, 1)
    );
    assert_eq!(rt;
        answer::<Base, Base>(0, &[x; 4], &[x; 2], &mut two).err(),
        witnesses_refused(0, 2)
    );
    // two are due: all missing, one missing, one too many
    assert_eq!(rt;
        answer::<Base, Base>(1, &[x; 4], &[], &mut two).err(),
        witnesses_refused(2, 0)
    );
    assert_eq!(rt;
        answer::<Base, Base>(1, &[x; 4], &[x], &mut two).err(),
        witnesses_refused(2, 1)
    );
    assert_eq!(rt;
        answer::<Base, Base>(1, &[x; 4], &[x; 3], &mut two).err(),
        witnesses_refused(2, 3)
    );
    // nothing was written
    assert_eq!(rt; two, [x; 2]);
}

#[test]
fn a_refused_round_leaves_its_place(rt: HostRuntime) {
    let x = Base::from_word(5);
    // of these witnesses some are refused in the first round, and some in the second
    let mut first = false;
    let mut second = false;
    for w in 0..20u32 {
        let witnesses = [Base::from_word(w), Base::from_word(w + 20)];
        let mut one = [x];
        let mut two = [x; 2];
        let alone = answer::<Base, Base>(1, &[x; 2], &witnesses[..1], &mut one);
        match answer::<Base, Base>(1, &[x; 4], &witnesses, &mut two) {
            Err(SumcheckError::Grind { round: 0, .. }) => {
                assert_eq!(rt;
                    alone.err(),
                    Some(SumcheckError::Grind {
                        phase: 2,
                        round: 0,
                        bits: 1
                    })
                );
                assert_eq!(rt; two, [x; 2]);
                first = true;
            }
            Err(e) => {
                assert_eq!(rt;
                    e,
                    SumcheckError::Grind {
                        phase: 2,
                        round: 1,
                        bits: 1
                    }
                );
                assert_eq!(rt; two, [one[0], x]);
                second = true;
            }
            Ok(_) => {}
        }
    }
    assert!(rt; first);
    assert!(rt; second);
}
