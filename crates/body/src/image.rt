use arrayvec::ArrayVec;
use market::orders::Order;
use market::tables::MOST_ORDERS;
use records::numbers::CommandNumber;

/// A state read from a body, in fixed memory.
#[derive(Drop)]
pub struct Image {
    pub(crate) last: CommandNumber,
    pub(crate) buys: ArrayVec<Order, MOST_ORDERS>,
    pub(crate) sells: ArrayVec<Order, MOST_ORDERS>,
}
