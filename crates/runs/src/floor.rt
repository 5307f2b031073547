//! An exchange at work, and what belongs to it.
ghost use Rattle.std.specs.Prelude.{◌≤◌, vec_len};

use crate::tellers::Teller;
use exchange::state::Exchange;
use records::notices::Notice;
use std::io::Write;

/// An exchange, the list that it is lent for its notices, with room for those of a page, and who is told.
#[derive(Drop)]
pub(crate) struct Floor<M, D, W: Write + Drop> {
    pub(crate) exchange: Exchange<M, D>,
    pub(crate) list: Vec<Notice>,
    pub(crate) teller: Teller<W>,
    ghost room: { 1024 ≤ vec_len list },
}
