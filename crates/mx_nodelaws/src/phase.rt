/// The phase of a node: it has no request, waits for permissions, or is inside the section of this
/// number.
#[derive(Clone, Copy, Debug, PartialEq, Eq)]
pub enum Phase {
    /// It has no request.
    Idle,
    /// It has asked, and has not entered yet.
    Waiting,
    /// It is inside the section of this number.
    Inside(u64),
}
