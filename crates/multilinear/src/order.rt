// The variable that a draw binds: the first free one, or the last.
#[derive(Clone, Copy, Debug, PartialEq, Eq)]
pub enum VariableOrder {
    Prefix,
    Suffix,
}
