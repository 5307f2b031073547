//! What is written: snapshots, and the sectors of a new exchange.
ghost use Rattle.std.specs.Prelude.{◌≡◌, ◌+◌, ◌*◌, ◌≤◌, ◌++◌, length};
ghost use Rattle.records.specs.Headers.{header_sector_bytes};
ghost use Rattle.protocol.specs.Worlds.{blank, body_at};
ghost use Rattle.protocol.specs.Steps.{blanks};
ghost use Rattle.journal.specs.declared.slots.Slot.TheVariants.{Zero};
ghost use Rattle.journal_io.specs.Pieces.{piece};
ghost use Rattle.journal_io.specs.Running.{Running, snapshot_writes, first_writes};

use device::run::{Operation, perform, run};
use device::{Device, Sector};
use journal::slots::Slot;
use protocol::faults::JournalFault;
use records::headers::Header;

const BLANK: Sector = [0; 512];

// The i-th 512 bytes of a body.
fn cut_out(body: &[u8; 1536], i: usize) -> Sector
    requires { i ≤ 2 }
    ensures { result ≡ piece body.now i }
{
    // A copy: `try_from` of the slice answers a Result that is never an error here.
    let mut out = [0; 512];
    out.copy_from_slice(&body[512 * i..512 * i + 512]);
    out
}

/// Makes the device calls of a list in order until one is cut.
pub fn perform_all<D: Device>(device: &mut D, script: &[Operation]) -> Result<(), JournalFault>
    ensures did { Running (D.meaning device.old) script.now result (D.meaning device.new) }
    ensures kept { D.lender device.new ≡ D.lender device.old }
{
    run(device, script)?;
    Ok(())
}

/// Writes a body to a slot, syncs, writes its header, and syncs.
pub fn put_snapshot<D: Device>(
    device: &mut D,
    slot: Slot,
    body: &[u8; 1536],
    header: &Header,
) -> Result<(), JournalFault>
    ensures did { Running (D.meaning device.old) (snapshot_writes slot body.now header.now) result (D.meaning device.new) }
    ensures kept { D.lender device.new ≡ D.lender device.old }
{
    let at = slot.body_sector();
    let script = [
        Operation::Write(at, cut_out(body, 0)),
        Operation::Write(at + 1, cut_out(body, 1)),
        Operation::Write(at + 2, cut_out(body, 2)),
        Operation::Sync,
        Operation::Write(slot.header_sector(), header.encode()),
        Operation::Sync,
    ];
    perform_all(device, &script)
}

// Zeros over so many sectors of the journal.
// The sectors are counted here, and no slice is: `i` is which of them. (A journal has at most 4,096 sectors: each call asks for
// that, since the device and its journal were tested by the caller. A layout in place of the number would ask more.)
fn blank_journal<D: Device>(device: &mut D, journal: usize) -> Result<(), JournalFault>
    requires { journal ≤ 4096 }
    ensures did { Running (D.meaning device.old) (blanks 8 journal) result (D.meaning device.new) }
    ensures kept { D.lender device.new ≡ D.lender device.old }
{
    for i in 0..journal {
        perform(device, &Operation::Write(8 + i, BLANK))?;
    }
    Ok(())
}

// Wakes the device, and clears both headers.
fn clear_headers<D: Device>(device: &mut D) -> Result<(), JournalFault>
    ensures did { Running (D.meaning device.old) first_writes result (D.meaning device.new) }
    ensures kept { D.lender device.new ≡ D.lender device.old }
{
    let script = [
        Operation::Wake,
        Operation::Write(0, BLANK),
        Operation::Write(4, BLANK),
    ];
    perform_all(device, &script)
}

// The same, and clears the journal.
fn clear_all<D: Device>(device: &mut D, journal: usize) -> Result<(), JournalFault>
    requires { journal ≤ 4096 }
    ensures did { Running (D.meaning device.old) (first_writes ++ blanks 8 journal) result (D.meaning device.new) }
    ensures kept { D.lender device.new ≡ D.lender device.old }
{
    clear_headers(device)?;
    blank_journal(device, journal)
}

/// The sectors of a new exchange: all are cleared, and the first snapshot is in slot 0.
pub fn put_first<D: Device>(
    device: &mut D,
    journal: usize,
    body: &[u8; 1536],
    header: &Header,
) -> Result<(), JournalFault>
    requires { journal ≤ 4096 }
    ensures did { Running (D.meaning device.old) ((first_writes ++ blanks 8 journal) ++ snapshot_writes Zero body.now header.now) result (D.meaning device.new) }
    ensures kept { D.lender device.new ≡ D.lender device.old }
{
    clear_all(device, journal)?;
    put_snapshot(device, Slot::Zero, body, header)
}
