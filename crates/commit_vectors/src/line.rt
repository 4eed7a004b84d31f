//! A stored line: the kind of its scheme, and the numbers after, taken from the front.
use commit::shelf::Shelf;
use field::{BaseField, ExtensionField, Field};
use std::alloc::Global;

/// The schemes of which openings are stored.
#[derive(Clone, Copy, PartialEq, Eq, Debug)]
pub enum Kind {
    Tree,
    Kept,
}

/// The kind of a line: a tree, unless it begins with `kept`.
impl<'a> From<&'a str> for Kind {
    fn from(line: &'a str) -> Kind {
        if line.starts_with("kept") {
            Kind::Kept
        } else {
            Kind::Tree
        }
    }
}

/// A line: the kind of its scheme, and its numbers that are not read yet. Past the last there are zeros, and lists are shorter.
#[derive(Clone, Copy, PartialEq, Eq, Debug)]
pub struct Line<'a> {
    heap: Global,
    kind: Kind,
    rest: &'a [u32],
}

impl<'a> Line<'a> {
    pub fn new(heap: Global, kind: Kind, numbers: &'a [u32]) -> Self {
        Line {
            heap,
            kind,
            rest: numbers,
        }
    }

    pub fn kind(&self) -> Kind {
        self.kind
    }

    /// The next so many numbers, or as many as are left.
    pub fn many(&mut self, count: usize) -> &'a [u32] {
        let (numbers, rest) = self.rest.split_at(count.min(self.rest.len()));
        self.rest = rest;
        numbers
    }

    /// The next number, or 0 after the last.
    pub fn one(&mut self) -> u32 {
        self.many(1).first().copied().unwrap_or(0)
    }

    /// As many numbers as the next number says.
    pub fn counted(&mut self) -> &'a [u32] {
        let count = self.one();
        self.many(count as usize)
    }

    /// As many indices as the next number says.
    pub fn indices(&mut self) -> anyhow::Result<Vec<usize>> {
        let indices = self.counted().iter().map(|index| *index as usize);
        Ok(indices.collect(self.heap)?)
    }

    /// The elements with these coefficients, one after another.
    fn elements<F: BaseField, E: ExtensionField<F>>(
        &self,
        coefficients: &[u32],
    ) -> anyhow::Result<Vec<E>> {
        // Kept: a closure, since the check does not cover a call of `map` with a generic function by its name.
        let elements = coefficients
            .chunks_exact(E::degree())
            .map(|numbers| element::<F, E>(numbers));
        Ok(elements.collect(self.heap)?)
    }

    /// The elements with as many coefficients as the next number says.
    pub fn rows<F: BaseField, E: ExtensionField<F>>(&mut self) -> anyhow::Result<Vec<E>> {
        let coefficients = self.counted();
        self.elements::<F, E>(coefficients)
    }

    /// The base elements that the numbers left are.
    pub fn values<F: BaseField>(&self) -> anyhow::Result<Vec<F>> {
        self.elements::<F, F>(self.rest)
    }

    /// As many shelves as the next number says, three numbers each.
    pub fn shelves(&mut self) -> anyhow::Result<Vec<Shelf>> {
        let count = self.one() as usize;
        let (numbers, _) = self.many(count.saturating_mul(3)).as_chunks::<3>();
        let shelves = numbers.iter().map(|[start, height, width]| Shelf {
            start: *start as usize,
            height: *height as usize,
            width: *width as usize,
        });
        Ok(shelves.collect(self.heap)?)
    }

    /// The digest of the next eight words.
    pub fn digest(&mut self) -> [u8; 32] {
        digest(self.many(8))
    }

    /// The digests that the words left are.
    pub fn digests(&self) -> anyhow::Result<Vec<[u8; 32]>> {
        Ok(self.rest.chunks_exact(8).map(digest).collect(self.heap)?)
    }
}

// The element with these coefficients, each modulo the modulus.
fn element<F: BaseField, E: ExtensionField<F>>(coefficients: &[u32]) -> E {
    coefficients
        .iter()
        .enumerate()
        .fold(E::zero(), |element, (j, number)| {
            element.with_coefficient(j, F::from_word(*number))
        })
}

// The bytes of eight words; of fewer, with zeros after.
fn digest(words: &[u32]) -> [u8; 32] {
    let mut bytes = [0; 32];
    let (fours, _) = bytes.as_chunks_mut::<4>();
    for (four, word) in fours.iter_mut().zip(words) {
        *four = word.to_le_bytes();
    }
    bytes
}
