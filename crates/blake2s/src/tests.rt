// A hasher is copied by `=`, and equal to another where what it has taken in is.
use crate::{Hasher, hash};

#[test]
fn a_copy_goes_its_own_way(rt: HostRuntime) {
    let mut first = Hasher::new();
    first.update(b"ab");
    let mut second = first;
    first.update(b"c");
    second.update(b"d");
    assert_eq!(rt; first.finish(), hash(b"abc"));
    assert_eq!(rt; second.finish(), hash(b"abd"));
}

#[test]
fn equal_in_whatever_pieces(rt: HostRuntime) {
    // A whole block and six bytes: the block goes through the buffer of the first hasher alone.
    let message = [7; 70];
    let mut first = Hasher::new();
    first.update(&message[..64]);
    first.update(&message[64..]);
    let mut second = Hasher::new();
    second.update(&message);
    assert_eq!(rt; first, second);
    first.update(b"c");
    assert_ne!(rt; first, second);
}
