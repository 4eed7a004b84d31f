//! A proof, and claims, as flat lists with places.
#![tactic(auto)]

ghost use Rattle.std.specs.Prelude.{◌≡◌, ◌+◌, ◌*◌, length, nat_le};

use thiserror::Error;

pub mod claims;
pub mod whir_proof;

/// A part of a list: so many of its items, from a start on.
#[derive(Clone, Copy, PartialEq, Eq, Debug)]
pub struct Place {
    pub start: usize,
    pub length: usize,
}

impl Place {
    /// Whether so many items, each of so many elements, stand within a list of that many elements.
    pub fn fits(self, size: usize, elements: usize) -> bool
        ensures { result ≡ nat_le (self.start + self.length * size) elements }
    {
        self.length
            .checked_mul(size)
            .and_then(|count| count.checked_add(self.start))
            .is_some_and(|end| end <= elements)
    }
}

/// A part of a proof passes the end of its list.
#[derive(Clone, Copy, PartialEq, Eq, Debug, Error)]
#[error("1 Limit")]
pub struct Limit;

#[cfg(test)]
mod tests {
    use super::*;

    #[test]
    fn places_end_within_a_list_of_five(rt: HostRuntime) {
        let cases = [
            (
                Place {
                    start: 2,
                    length: 3,
                },
                1,
                true,
            ),
            (
                Place {
                    start: 2,
                    length: 4,
                },
                1,
                false,
            ),
            (
                Place {
                    start: 5,
                    length: 0,
                },
                1,
                true,
            ),
            (
                Place {
                    start: 6,
                    length: 0,
                },
                1,
                false,
            ),
            (
                Place {
                    start: 1,
                    length: 2,
                },
                2,
                true,
            ),
            (
                Place {
                    start: 2,
                    length: 2,
                },
                2,
                false,
            ),
            (
                Place {
                    start: usize::MAX,
                    length: 1,
                },
                1,
                false,
            ),
            (
                Place {
                    start: 0,
                    length: usize::MAX / 2 + 1,
                },
                2,
                false,
            ),
        ];
        for (place, size, fits) in cases {
            assert_eq!(rt; place.fits(size, 5), fits);
        }
    }
}
