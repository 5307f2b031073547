//! Words that are read in order.

// The words that are still to be read.
#[derive(Clone, Copy)]
pub(crate) struct Words<'w, 't> {
    pub(crate) left: &'w [&'t str],
}
