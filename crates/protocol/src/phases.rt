//! What an exchange is doing.

/// Phase and call together decide what is allowed.
#[derive(Clone, Copy, PartialEq, Eq, Debug)]
pub enum Phase {
    /// Takes commands.
    Live,
    /// A page is written, and waits for its sync.
    Written,
    /// Knows nothing: it was never set up, was cut or was restarted.
    Dark,
    /// Was opened, and reads its journal page by page.
    Replaying,
}
