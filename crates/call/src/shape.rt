use ruled_market::shape::RestingMarket;

/// The rules of a call auction: orders rest as they enter, and a cross trades them all at once.
pub struct Crossing;

/// A running call auction.
pub type CallAuction = RestingMarket<Crossing>;
