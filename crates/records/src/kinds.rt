//! What a record is of.

mod codes;

pub(crate) use codes::kind_in;

/// The kinds of records, under the numbers that stand in their bytes 2 and 3.
#[derive(Clone, Copy, PartialEq, Eq, Debug)]
pub(crate) enum RecordKind {
    Page = 1,
    Header = 2,
    Enter = 11,
    Cancel = 12,
    Cross = 13,
}

/// A number that is no record's kind.
#[derive(Clone, Copy, PartialEq, Eq, Debug)]
pub(crate) struct NoKind(pub(crate) u16);
