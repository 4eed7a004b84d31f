// Claims, and the coordinates of their points.
use crate::Place;

/// A claim: a point, whose coordinates stand in a list, and the value that the table is to have there.
#[derive(Clone, Copy, PartialEq, Eq, Debug)]
pub struct Claim<E> {
    pub point: Place,
    pub value: E,
}

/// Claims with the list of their points' coordinates.
#[derive(Clone, Copy, PartialEq, Eq, Debug)]
pub struct Claims<'a, E> {
    pub coordinates: &'a [E],
    pub claims: &'a [Claim<E>],
}
