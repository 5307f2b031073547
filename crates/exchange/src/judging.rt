//! Which reason forbids a call, the first that fits.
ghost use Rattle.std.specs.Prelude.{◌≡◌, ◌+◌, ◌*◌, ◌<◌, ◌≤◌, true, ◌⊎◌, length, IfOk, Some, vec_len, MatchResult};
ghost use Rattle.records.specs.Commands.{decoded, good};
ghost use Rattle.records.specs.declared.refusals.Refusal.TheVariants.{WrongPhase, ShortList, WrongTicket};
ghost use Rattle.journal.specs.Places.{size_good};
ghost use Rattle.protocol.specs.Worlds.{rules_of};
ghost use Rattle.protocol.specs.Steps.{world_of, last_notice, stage_reasons, write_reasons, sync_reasons, deliver_reasons, snapshot_reasons, open_reasons, replay_reasons};
ghost use Rattle.protocol.specs.declared.phases.Phase.TheVariants.{Live, Written, Dark, Replaying};
ghost use Rattle.exchange.specs.Judging.{Judged};
ghost use Rattle.exchange.specs.Phases.{started, starts};
ghost use Rattle.exchange.specs.Views.{view};

use crate::phases::{Asked, next_phase};
use crate::state::Exchange;
use crate::tokens::Ticket;
use device::Device;
use journal::layouts::Layout;
use market::interface::Market;
use protocol::phases::Phase;
use protocol::tokens::ReceiptNumbers;
use records::commands::Command;
use records::numbers::{LAST_NUMBER, NoticeNumber};
use records::pages::batches::MOST_COMMANDS;
use records::refusals::Refusal;

/// What a call that is allowed goes on with: the phase that follows, and where pages lie.
#[derive(Clone, Copy)]
pub(crate) struct Way {
    pub(crate) next: Phase,
    pub(crate) layout: Layout,
}

impl<M: Market, D: Device> Exchange<M, D> {
    // The command to stage.
    pub(crate) fn judge_stage(&self, bytes: &[u8]) -> Result<Command, Refusal>
        ensures judged { Judged (stage_reasons (world_of (rules_of M.Market) (view M.Market D.Device self.now)) (view M.Market D.Device self.now) bytes.now) result }
        ensures allowed { IfOk result (λ c. (decoded bytes.now ≡ Some c) × (good c ≡ true) × (vec_len self.now.staged < 16) × (self.now.commands.0 + vec_len self.now.staged < 1000000000000) × (self.now.phase ≡ Live)) }
    {
        next_phase(self.phase, Asked::Stage)?;
        let command = Command::decode(bytes)?;
        if self.staged.len() >= MOST_COMMANDS {
            return Err(Refusal::PageFull);
        }
        if self.commands.0 + self.staged.len() as u64 >= LAST_NUMBER {
            return Err(Refusal::NumbersSpent);
        }
        Ok(command)
    }

    pub(crate) fn judge_write(&self) -> Result<Way, Refusal>
        ensures judged { Judged (write_reasons (world_of (rules_of M.Market) (view M.Market D.Device self.now)) (view M.Market D.Device self.now)) result }
        ensures allowed { IfOk result (λ w. (w.next ≡ Written) × (1 ≤ vec_len self.now.staged) × (w.layout.size ≡ (D.meaning self.now.device).size)) }
    {
        let next = next_phase(self.phase, Asked::Write)?;
        if self.staged.is_empty() {
            return Err(Refusal::NothingStaged);
        }
        let size = self.device.size();
        if self.covered.0 + (size.saturating_sub(8) as u64) < self.pages.0 + 1 {
            return Err(Refusal::JournalFull);
        }
        let layout = Layout::new(size).ok_or(Refusal::PastTheEnd)?;
        Ok(Way { next, layout })
    }

    // The phase that a sync leads to.
    pub(crate) fn judge_sync(&self, ticket: &Ticket, room: usize) -> Result<Phase, Refusal>
        ensures judged { Judged (sync_reasons (world_of (rules_of M.Market) (view M.Market D.Device self.now)) (view M.Market D.Device self.now) ticket.now.numbers room) result }
        ensures allowed { MatchResult result (λ p. (p ≡ Live) × (1 ≤ vec_len self.now.staged) × (64 * vec_len self.now.staged ≤ room)) (λ f. (f ≡ WrongPhase) ⊎ ((f ≡ ShortList) ⊎ (f ≡ WrongTicket))) }
    {
        let next = next_phase(self.phase, Asked::Sync)?;
        if room < 64 * self.staged.len() {
            return Err(Refusal::ShortList);
        }
        let numbers = ticket.numbers;
        if numbers.house != self.house || numbers.page.0 != self.pages.0 + 1 {
            return Err(Refusal::WrongTicket);
        }
        Ok(next)
    }

    // The last notice that a receipt delivers.
    pub(crate) fn judge_deliver(&self, numbers: ReceiptNumbers) -> Result<NoticeNumber, Refusal>
        ensures judged { Judged (deliver_reasons (world_of (rules_of M.Market) (view M.Market D.Device self.now)) (view M.Market D.Device self.now) numbers) result }
        ensures allowed { IfOk result (λ n. (n.0 ≡ last_notice numbers) × (n.0 ≤ self.now.notices.0)) }
    {
        if numbers.house != self.house || numbers.notice.0 > self.mark.0 + 1 {
            return Err(Refusal::WrongReceipt);
        }
        let sum = numbers.notice.0.checked_add(numbers.notices);
        let last = sum.ok_or(Refusal::WrongReceipt)?.saturating_sub(1);
        if last > self.notices.0 {
            return Err(Refusal::WrongReceipt);
        }
        Ok(NoticeNumber(last))
    }

    // The phase that a snapshot leads to.
    pub(crate) fn judge_snapshot(&self) -> Result<Phase, Refusal>
        ensures judged { Judged (snapshot_reasons (world_of (rules_of M.Market) (view M.Market D.Device self.now)) (view M.Market D.Device self.now)) result }
        ensures allowed { IfOk result (λ p. (p ≡ Live) × (self.now.phase ≡ Live)) }
    {
        let next = next_phase(self.phase, Asked::Snapshot)?;
        if self.covered == self.pages {
            return Err(Refusal::AlreadyCovered);
        }
        if self.mark < self.notices {
            return Err(Refusal::Undelivered);
        }
        Layout::new(self.device.size()).ok_or(Refusal::PastTheEnd)?;
        Ok(next)
    }

    // What set up and open ask alike.
    pub(crate) fn judge_start(&self, asked: Asked) -> Result<Way, Refusal>
        requires { starts asked ≡ true }
        ensures judged { Judged (open_reasons (world_of (rules_of M.Market) (view M.Market D.Device self.now)) (view M.Market D.Device self.now)) result }
        ensures allowed { IfOk result (λ w. (w.next ≡ started asked) × (w.layout.size ≡ (D.meaning self.now.device).size) × (9 ≤ (D.meaning self.now.device).size) × (size_good (D.meaning self.now.device).size ≡ true)) }
    {
        if self.house.0 == 0 {
            return Err(Refusal::NoHouse);
        }
        let layout = Layout::new(self.device.size()).ok_or(Refusal::DeviceSize)?;
        let next = next_phase(self.phase, asked)?;
        Ok(Way { next, layout })
    }

    pub(crate) fn judge_replay(&self, room: usize) -> Result<Way, Refusal>
        ensures judged { Judged (replay_reasons (world_of (rules_of M.Market) (view M.Market D.Device self.now)) (view M.Market D.Device self.now) room) result }
        ensures allowed { IfOk result (λ w. (w.next ≡ Replaying) × (self.now.phase ≡ Replaying) × (1024 ≤ room) × (w.layout.size ≡ (D.meaning self.now.device).size)) }
    {
        let next = next_phase(self.phase, Asked::Replay)?;
        if room < 1024 {
            return Err(Refusal::ShortList);
        }
        let layout = Layout::new(self.device.size()).ok_or(Refusal::PastTheEnd)?;
        Ok(Way { next, layout })
    }
}
