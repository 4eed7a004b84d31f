//! Drawing numbers and elements from any sponge, and handing elements to it.
ghost use Rattle.std.specs.Prelude.{◌≡◌, Ok};
ghost use Rattle.sponge.specs.Plays.{Plays};
ghost use Rattle.sponge.specs.Drawing.{draw_bits, check_witness, draw_base, draw_extension, observe_base, observe_extension};
ghost use Rattle.sponge.specs.Drawn.{Grinding, Elements};

use crate::Sponge;
use field::bytes::element_bytes;
use field::{BaseField, ExtensionField};

/// So many bits: a word modulo that power of two. (From 32 bits on that is the word itself.)
pub fn draw_bits<S: Sponge>(sponge: &mut S, bits: u32) -> u32
    ensures { Plays S.Sponge.rules (S.Sponge.held sponge.old) (draw_bits bits) (Ok result) (S.Sponge.held sponge.new) }
{
    let word = sponge.draw();
    if bits < 32 { word % (1 << bits) } else { word }
}

/// Grinding: observes the witness, draws so many bits, and says whether they are 0. At 0 bits
/// nothing is observed or drawn, and every witness will do.
pub fn check_witness<S: Sponge>(sponge: &mut S, bits: u32, witness: u32) -> bool
    ensures { Plays S.Sponge.rules (S.Sponge.held sponge.old) (check_witness bits witness) (Ok result) (S.Sponge.held sponge.new) }
{
    if bits == 0 {
        return true;
    }
    sponge.observe(&witness.to_le_bytes());
    let drawn = draw_bits(sponge, bits);
    drawn == 0
}

/// A base element: a word modulo the modulus.
pub fn draw_base<F: BaseField, S: Sponge>(sponge: &mut S) -> F
    ensures { Plays S.Sponge.rules (S.Sponge.held sponge.old) (draw_base F.BaseField.numbering) (Ok result) (S.Sponge.held sponge.new) }
{
    F::from_word(sponge.draw())
}

/// An extension element: its coefficients in turn, each a base element.
pub fn draw_extension<F: BaseField, E: ExtensionField<F>, S: Sponge>(sponge: &mut S) -> E
    ensures { Plays S.Sponge.rules (S.Sponge.held sponge.old) (draw_extension F.BaseField.numbering E.ExtensionField.extension) (Ok result) (S.Sponge.held sponge.new) }
{
    let mut x = E::zero();
    // Kept: a `for`. A `fold` was tried: its closure changes the sponge, and nothing is known of what the sponge holds after it.
    for i in 0..E::degree() {
        x = x.with_coefficient(i, draw_base::<F, S>(sponge));
    }
    x
}

/// Observes a base element by one call: the four bytes of its number, lowest first.
pub fn observe_base<F: BaseField, S: Sponge>(sponge: &mut S, x: F)
    ensures { Plays S.Sponge.rules (S.Sponge.held sponge.old) (observe_base F.BaseField.numbering x) (Ok tt) (S.Sponge.held sponge.new) }
{
    sponge.observe(&x.number().to_le_bytes());
}

/// Observes an extension element by one call: four bytes for each coefficient, in their order.
pub fn observe_extension<F: BaseField, E: ExtensionField<F>, S: Sponge>(sponge: &mut S, x: E)
    ensures { Plays S.Sponge.rules (S.Sponge.held sponge.old) (observe_extension F.BaseField.numbering E.ExtensionField.extension x) (Ok tt) (S.Sponge.held sponge.new) }
{
    sponge.observe(&element_bytes::<F, E>(x));
}

/// Grinding observes the witness, then draws a word, and says yes exactly where its lowest bits are 0.
pub fn grinding_stands()
    ensures { Grinding }
{}

/// An element's coefficients are the words drawn for it, modulo the modulus, in order.
pub fn elements_stand<F: BaseField, E: ExtensionField<F>>()
    ensures { Elements F.BaseField.numbering E.ExtensionField.extension }
{}
