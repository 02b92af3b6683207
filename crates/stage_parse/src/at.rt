//! Where the parser stands.

/// Where the parser stands.
#[derive(Clone, Copy)]
pub(crate) enum At {
    /// It waits for a batch.
    Idle,
    /// It reads the next statement of its batch.
    Parsing,
    /// It passes on what comes back of the statement of this line.
    Passing(u32),
    /// The session has ended.
    Ended,
}
