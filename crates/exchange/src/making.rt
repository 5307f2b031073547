//! A new exchange, and what can be asked of one.
ghost use Rattle.std.specs.Prelude.{◌≡◌, IfOk, vec_len, vec_capacity};
ghost use Rattle.protocol.specs.Worlds.{rules_of};
ghost use Rattle.protocol.specs.Steps.{reset};
ghost use Rattle.exchange.specs.Views.{view};

use crate::state::Exchange;
use device::Device;
use journal::slots::Slot;
use market::interface::Market;
use protocol::phases::Phase;
use records::numbers::{CommandNumber, HouseNumber, NoticeNumber, PageNumber};
use records::pages::batches::MOST_COMMANDS;
use std::alloc::{AllocError, Global};

/// The numbers of an exchange.
#[derive(Clone, Copy)]
pub struct Status {
    pub house: HouseNumber,
    pub phase: Phase,
    /// How many commands are staged.
    pub staged: usize,
    pub pages: PageNumber,
    pub commands: CommandNumber,
    pub notices: NoticeNumber,
    /// The last notice that is known to be delivered.
    pub mark: NoticeNumber,
    /// The page that a snapshot covers, and its slot.
    pub covered: PageNumber,
    pub slot: Slot,
}

impl<M: Market, D: Device + Drop> Exchange<M, D> {
    /// A new exchange, which is reset, with all the memory that it will need.
    pub fn new(heap: Global, house: HouseNumber, device: D) -> Result<Exchange<M, D>, AllocError>
        ensures { IfOk result (λ x. (view M.Market D.Device x ≡ reset (record { house = house; size = (D.meaning device).size; rules = rules_of M.Market }) (D.meaning device)) × (x.device ≡ device) × (vec_capacity x.staged ≡ 16)) }
    {
        Ok(Exchange {
            house,
            phase: Phase::Dark,
            staged: Vec::with_capacity(heap, MOST_COMMANDS)?,
            pages: PageNumber(0),
            commands: CommandNumber(0),
            notices: NoticeNumber(0),
            mark: NoticeNumber(0),
            covered: PageNumber(0),
            slot: Slot::Zero,
            market: M::new(heap)?,
            device,
        })
    }
}

impl<M: Market, D: Device> Exchange<M, D> {
    /// Its numbers.
    pub fn status(&self) -> Status
        ensures { result ≡ record { house = self.now.house; phase = self.now.phase; staged = vec_len self.now.staged; pages = self.now.pages; commands = self.now.commands; notices = self.now.notices; mark = self.now.mark; covered = self.now.covered; slot = self.now.slot } }
    {
        Status {
            house: self.house,
            phase: self.phase,
            staged: self.staged.len(),
            pages: self.pages,
            commands: self.commands,
            notices: self.notices,
            mark: self.mark,
            covered: self.covered,
            slot: self.slot,
        }
    }

    /// Its market.
    pub fn market(&self) -> &M
        ensures { result.now ≡ self.now.market }
    {
        &self.market
    }
}
