use ruled_market::shape::RestingMarket;

/// The rules of a running book: orders trade as they enter.
pub struct Continuous;

/// A running book.
pub type Book = RestingMarket<Continuous>;
