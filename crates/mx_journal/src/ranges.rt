/// The section numbers from `first` to `last`, both included. The range is empty if `first` is
/// above `last`.
#[derive(Clone, Copy, Debug, Default, PartialEq, Eq)]
pub struct Range {
    /// The first number of the range.
    pub first: u64,
    /// The last number of the range.
    pub last: u64,
}
