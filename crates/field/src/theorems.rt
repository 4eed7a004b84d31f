// What is shown once for all of the fields, each the contract of a function that has nothing to compute.
ghost use Rattle.ring.specs.Polynomials.{FewRoots, EqualOrRoot, SameOrRoot};
ghost use Rattle.field.specs.Theorems.{BaseFields, Towers, SquareOfOneOne};

use crate::Field;

pub fn base_fields_stand()
    ensures { BaseFields }
{}

pub fn towers_stand<F: Field>()
    ensures { Towers F.Field.ops }
{}

pub fn square_of_one_one()
    ensures { SquareOfOneOne }
{}

// A polynomial of degree d that is not zero has at most d roots.
pub fn roots_are_few<F: Field>()
    ensures { FewRoots F.Field.ops }
{}

// Polynomials alike at a point are equal, or the point is a root of their difference.
pub fn equal_or_root<F: Field>()
    ensures everywhere { EqualOrRoot F.Field.ops }
    ensures same { SameOrRoot F.Field.ops }
{}
