//! Phase and call together decide what is allowed, and which phase follows.
ghost use Rattle.exchange.specs.Phases.{Moves};

use protocol::phases::Phase;
use records::refusals::Refusal;

/// What is asked of an exchange.
#[derive(Clone, Copy)]
pub(crate) enum Asked {
    SetUp,
    Stage,
    Write,
    Sync,
    Snapshot,
    Open,
    Replay,
}

// The phase that follows, where this one allows the call.
pub(crate) fn next_phase(phase: Phase, asked: Asked) -> Result<Phase, Refusal>
    ensures { Moves phase asked result }
{
    match (phase, asked) {
        (Phase::Dark, Asked::SetUp) => Ok(Phase::Live),
        (Phase::Live, Asked::Stage) => Ok(Phase::Live),
        (Phase::Live, Asked::Write) => Ok(Phase::Written),
        (Phase::Written, Asked::Sync) => Ok(Phase::Live),
        (Phase::Live, Asked::Snapshot) => Ok(Phase::Live),
        (Phase::Dark, Asked::Open) => Ok(Phase::Replaying),
        (Phase::Replaying, Asked::Replay) => Ok(Phase::Replaying),
        _ => Err(Refusal::WrongPhase),
    }
}
