// A separator of a caller's own pieces.
use crate::piece::{Piece, TooLong};
use crate::separator::DomainSeparator;
use sponge::Sponge;
use sponge::trial::TrialSponge;
use std::test::Fail;

#[test]
fn a_separator_of_own_pieces(rt: HostRuntime) -> Result<(), Fail> {
    let longest = [7; 48];
    let mut pieces = Vec::new(rt.alloc());
    pieces.push(Piece::try_from(b"abc".as_slice())?)?;
    pieces.push(Piece::try_from(longest.as_slice())?)?;
    let mut sponge = TrialSponge::make(());
    DomainSeparator { pieces }.observe(&mut sponge);
    let mut expected = TrialSponge::make(());
    expected.observe(b"abc");
    expected.observe(&longest);
    assert_eq!(rt; sponge.state(), expected.state());
    assert_eq!(rt; Piece::try_from([7; 49].as_slice()), Err(TooLong));
    Ok(())
}
