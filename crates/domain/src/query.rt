use thiserror::Error;

// Selector coordinates for one queried codeword position.
#[derive(Clone, Copy, PartialEq, Eq, Debug)]
pub enum WhirQueryPoint<F> {
    // A univariate point expanded through successive squares.
    Univariate(F),

    // Direct coordinates in the code's multilinear basis, which are asked one by one.
    Multilinear,
}

// What is outside the limits of a domain.
#[derive(Clone, Copy, PartialEq, Eq, Debug, Error)]
pub enum Limit {
    // No such log size, number of variables, index or coordinate.
    #[error("the domain has no such log size, number of variables, index or coordinate")]
    OutOfDomain,

    // A list that is no domain.
    #[error("the elements are not distinct, or their number is no power of two up to 4096")]
    BadList,
}
