// Kept: a place among the values that `KeptTables` lends, and no slice of its own; beside that type stands why.
/// A place for a matrix among the values that are kept: where its first row starts, how many rows it has, and how wide they are.
#[derive(Clone, Copy, PartialEq, Eq, Debug)]
pub struct Shelf {
    pub start: usize,
    pub height: usize,
    pub width: usize,
}
