//! What the stages work on.

/// What the stages work on: a database, files by their names, where the script comes from, and where the
/// output goes.
#[derive(Drop)]
pub struct Room<B, H, S, K> {
    /// The database.
    pub base: B,
    /// The files.
    pub shelf: H,
    /// The script.
    pub source: S,
    /// The output.
    pub sink: K,
}
