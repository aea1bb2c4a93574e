use mx_scripts::SessionEvent;

/// One thing that a line of a script does.
#[derive(Clone, Copy)]
pub struct Happening {
    /// The number of the line, counted from 1.
    pub line: u64,
    pub event: SessionEvent,
}
