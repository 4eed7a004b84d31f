// A query site: where the queries of a phase are made.
ghost use Rattle.std.specs.Prelude.{◌≤◌, ◌≢◌, Some, unwrap_or};

// The difficulty before a phase's queries, the bits of an index and how many indices are drawn; none where every position opens.
#[derive(Clone, Copy, PartialEq, Eq, Debug)]
pub struct QuerySite {
    pub pow_bits: usize,
    pub index_bits: usize,
    pub draws: Option<usize>,
    ghost narrow: { index_bits ≤ 16 },
    ghost small: { unwrap_or draws 0 ≤ 1024 },
    ghost some: { draws ≢ Some 0 },
}
