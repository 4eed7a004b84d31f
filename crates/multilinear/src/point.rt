ghost use Rattle.std.specs.Prelude.{◌≡◌, List, [], ◌∷◌, ◌++◌, length, MatchOption, IsTrue, ◌↔◌};
ghost use Rattle.std.specs.Iterator.{YieldsFirst, YieldsLast, item_count};
ghost use Rattle.multilinear.specs.Tables.{orient};

use crate::order::VariableOrder;
use std::marker::Model;

// The point of a table that draws stand for: the draws as they are under Prefix, reversed under Suffix. It is seen as the list of its
// coordinates; no reversed copy is made.
#[derive(Drop)]
pub struct Point<'a, F> {
    pub(crate) draws: &'a [F],
    pub(crate) order: VariableOrder,
}

impl<'a, F> Model for Point<'a, F> {
    ghost use Rattle.std.specs.Prelude.{List};

    ghost Value = { List F };

    ghost use Rattle.multilinear.specs.Tables.{orient};

    ghost view = { λ p. orient p.order p.draws.now };
}

impl<'a, F: Copy> Point<'a, F> {
    pub fn new(draws: &'a [F], order: VariableOrder) -> Self
        ensures { result ≡ orient order draws.now }
    {
        Point { draws, order }
    }

    // The number of coordinates.
    #[tactic(auto, using(crate::proofs::Points::orient_length))]
    pub fn len(&self) -> usize
        ensures { result ≡ length self.now }
    {
        self.draws.len()
    }

    pub fn is_empty(&self) -> bool
        ensures { IsTrue result ↔ (self.now ≡ []) }
    {
        self.len() == 0
    }

    // The first coordinate, and the point of the others.
    #[tactic(auto, using(crate::proofs::Points::orient_none, crate::proofs::Points::prefix_first, crate::proofs::Points::suffix_first))]
    pub fn split_first(&self) -> Option<(F, Point<'a, F>)>
        ensures { MatchOption result (self.now ≡ []) (λ p. self.now ≡ p.0 ∷ p.1) }
    {
        let (x, draws) = match self.order {
            VariableOrder::Prefix => self.draws.split_first()?,
            VariableOrder::Suffix => self.draws.split_last()?,
        };
        Some((
            *x,
            Point {
                draws,
                order: self.order,
            },
        ))
    }

    // The last coordinate, and the point of the others.
    #[tactic(auto, using(crate::proofs::Points::orient_none, crate::proofs::Points::prefix_last, crate::proofs::Points::suffix_last))]
    pub fn split_last(&self) -> Option<(F, Point<'a, F>)>
        ensures { MatchOption result (self.now ≡ []) (λ p. self.now ≡ p.1 ++ p.0 ∷ []) }
    {
        let (x, draws) = match self.order {
            VariableOrder::Prefix => self.draws.split_last()?,
            VariableOrder::Suffix => self.draws.split_first()?,
        };
        Some((
            *x,
            Point {
                draws,
                order: self.order,
            },
        ))
    }

    // The coordinates, one after another.
    pub fn iter(&self) -> Coordinates<'a, F>
        ensures { result ≡ self.now }
    {
        Coordinates {
            rest: Point {
                draws: self.draws,
                order: self.order,
            },
        }
    }
}

// The coordinates of a point that are left, seen as their list.
#[derive(Drop)]
pub struct Coordinates<'a, F> {
    rest: Point<'a, F>,
}

impl<'a, F> Model for Coordinates<'a, F> {
    ghost use Rattle.std.specs.Prelude.{List};

    ghost Value = { List F };

    ghost view = { λ c. c.rest };
}

impl<'a, F: Copy> Iterator for Coordinates<'a, F> {
    type Item = F;

    ghost next_gives = { YieldsFirst (λ rest. rest) };

    ghost remaining = { item_count (λ rest. rest) };

    fn next(&mut self) -> Option<F> {
        let (x, rest) = self.rest.split_first()?;
        self.rest = rest;
        Some(x)
    }
}

impl<'a, F: Copy> DoubleEndedIterator for Coordinates<'a, F> {
    ghost next_back_gives = { YieldsLast (λ rest. rest) };

    fn next_back(&mut self) -> Option<F> {
        let (x, rest) = self.rest.split_last()?;
        self.rest = rest;
        Some(x)
    }
}
