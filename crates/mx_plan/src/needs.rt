/// The keys that a plan has to have.
#[derive(Clone, Copy)]
pub enum Needs {
    /// `algorithm`, `nodes`, `registers` and `sections`.
    All,
    /// `nodes` and `registers`. A missing `algorithm` counts as `ricart`, and a missing `sections` as
    /// the greatest number.
    Names,
}
