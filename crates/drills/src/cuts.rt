//! Where the power is cut.
use image::Fuse;

/// A drive of the pile.
#[derive(Clone, Copy, PartialEq, Eq, Debug)]
pub(crate) enum Half {
    First,
    Second,
}

/// The calls that are cut. The plan is chosen for each run.
#[derive(Clone, Copy)]
pub(crate) enum Aim {
    Nowhere,
    /// A half is cut after so many of its calls.
    Once { half: Half, left: u32 },
    /// It is cut, and then again after so many calls from where it was woken.
    Again { half: Half, first: Fuse, left: u32 },
    /// A half is cut, and the other one after so many of its own calls.
    Both { half: Half, left: u32, other: u32 },
}

/// A cut in a script's own calls.
#[derive(Clone, Copy)]
pub(crate) struct Cut {
    /// How many calls the half serves before it.
    pub(crate) left: u32,
    /// The call of the script that it comes in.
    pub(crate) call: usize,
    /// How many writes wait, or are in course.
    pub(crate) writes: u32,
}
