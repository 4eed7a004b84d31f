// Replays products that another implementation computed. A line is `mul`, the modulus, the degree D, and the D coefficients of
// each factor and of the product.
#![tactic(auto)]

use field::bytes::{element_bytes, from_numbers, read_element};
use field::pair::Pair;
use field::residue::Residue;
use field::{BaseField, ExtensionField, Field};

// Whether an element is read back from the bytes that it is written as.
fn keeps<F: BaseField, E: ExtensionField<F>>(x: E) -> bool {
    read_element::<F, E>(&element_bytes::<F, E>(x)) == Some(x)
}

fn agrees<F: BaseField, E: ExtensionField<F>>(numbers: &[u32]) -> Option<bool> {
    let degree = E::degree();
    let (x, rest) = numbers.split_at_checked(degree)?;
    let (y, product) = rest.split_at_checked(degree)?;
    let x: E = from_numbers::<F, E>(x)?;
    let y: E = from_numbers::<F, E>(y)?;
    let product: E = from_numbers::<F, E>(product)?;
    Some(x.mul(y) == product && keeps::<F, E>(product))
}

// Kept: one arm for each degree names its extension, here and in two other programs: one match for all would take a trait with a generic function,
// and a type with an impl of it in each program, in place of these lines.
fn agrees_in_degree<F: BaseField>(degree: u32, numbers: &[u32]) -> Option<bool> {
    match degree {
        1 => agrees::<F, F>(numbers),
        2 => agrees::<F, Pair<F>>(numbers),
        4 => agrees::<F, Pair<Pair<F>>>(numbers),
        8 => agrees::<F, Pair<Pair<Pair<F>>>>(numbers),
        _ => None,
    }
}

fn holds(line: &[u32]) -> Option<bool> {
    match line {
        [257, degree, numbers @ ..] => agrees_in_degree::<Residue<257>>(*degree, numbers),
        [65537, degree, numbers @ ..] => agrees_in_degree::<Residue<65537>>(*degree, numbers),
        _ => None,
    }
}

// Kept: each program of stored lines counts them by itself: a loop for all would be a library's function that calls a closure, which is proved only
// under a `requires`, and no public function has one; what is left to share are two counters.
fn main(rt: HostRuntime) -> anyhow::Result<()> {
    let mut count = 0u64;
    let mut agree = 0u64;
    for line in rt.lines(rt.alloc()) {
        let line = line?;
        let numbers: Vec<u32> = line
            .split_whitespace()
            .skip(1)
            .map(|word| -> anyhow::Result<u32> { Ok(word.parse()?) })
            .try_collect(rt.alloc())?;
        count = count.saturating_add(1);
        if holds(&numbers) == Some(true) {
            agree = agree.saturating_add(1);
        }
    }
    println!(rt; "{count} products, {agree} agree")?;
    Ok(())
}
