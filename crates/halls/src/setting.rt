//! An exchange set up on a file, or on a mirror of two.
ghost use Rattle.std.specs.Prelude.{◌≡◌, ◌≢◌, true, OnOk};
ghost use Rattle.journal.specs.Places.{size_good};

use crate::faults::HallFault;
use crate::files::{make_file, make_files};
use crate::markets::MarketWord;
use crate::sizes::ImageSize;
use book::shape::Continuous;
use call::shape::Crossing;
use device::Device;
use drives::Drive;
use exchange::state::Exchange;
use file_device::OnFile;
use mirror::Mirror;
use play_words::script::MarketKind;
use protocol::faults::ExchangeFault;
use records::numbers::HouseNumber;
use records::refusals::Refusal;
use ruled_market::rules::Rules;
use ruled_market::shape::RestingMarket;
use std::alloc::Global;
use std::fs::File;
use std::io;

/// What is set up, and on which file.
#[derive(Clone, Copy)]
pub struct Setting<'w> {
    pub file: &'w str,
    /// The other file, where the exchange lies on a mirror of two.
    pub mirror: Option<&'w str>,
    pub house: HouseNumber,
    pub market: MarketKind,
    pub sectors: usize,
    /// Whether a file that is there is overwritten.
    pub force: bool,
}

// Sets the exchange up. Its last call of the device is a sync, and so one of its files. (Where that is refused, they stay.)
fn set_up_in<R: Rules, D: Device + Drop>(
    heap: Global,
    house: HouseNumber,
    device: D,
) -> Result<(), HallFault> {
    let mut exchange: Exchange<RestingMarket<R>, D> = Exchange::new(heap, house, device)?;
    Ok(exchange.set_up()?)
}

// The market is chosen once, from a word: what follows is one generic function.
fn set_up_on<D: Device + Drop>(
    heap: Global,
    house: HouseNumber,
    market: MarketKind,
    device: D,
) -> Result<(), HallFault> {
    match market {
        MarketKind::Book => set_up_in::<Continuous, D>(heap, house, device),
        MarketKind::Call => set_up_in::<Crossing, D>(heap, house, device),
    }
}

// A device on a file, over an image in memory.
fn on_file(heap: Global, image: &mut [u8], file: File) -> Result<OnFile<'_>, HallFault> {
    Ok(OnFile::new(Drive::write_back(heap, image)?, file))
}

fn set_up_one(rt: &HostRuntime, setting: Setting, size: ImageSize) -> Result<(), HallFault> {
    let mut image = Vec::from_elem(rt.alloc(), 0, size.image_bytes())?;
    let file = make_file(rt, setting.file, setting.force, size)?;
    let device = on_file(rt.alloc(), &mut image, file)?;
    set_up_on(rt.alloc(), setting.house, setting.market, device)
}

fn set_up_two(
    rt: &HostRuntime,
    setting: Setting,
    other: &str,
    size: ImageSize,
) -> Result<(), HallFault> {
    let mut first = Vec::from_elem(rt.alloc(), 0, size.image_bytes())?;
    let mut second = Vec::from_elem(rt.alloc(), 0, size.image_bytes())?;
    let (one, two) = make_files(rt, (setting.file, other), setting.force, size)?;
    let device = Mirror::new(
        on_file(rt.alloc(), &mut first, one)?,
        on_file(rt.alloc(), &mut second, two)?,
    );
    set_up_on(rt.alloc(), setting.house, setting.market, device)
}

fn print_setting(rt: &HostRuntime, setting: Setting) -> io::Result<()> {
    print!(rt; "set up {}", setting.file)?;
    if let Some(other) = setting.mirror {
        print!(rt; " and {other}")?;
    }
    let (house, sectors) = (setting.house.0, setting.sectors);
    let market = MarketWord(setting.market);
    println!(rt; ": house {house}, market {market}, {sectors} sectors")?;
    Ok(())
}

/// Makes the file, or both, and sets the exchange up. What can be refused before a file is made or changed is refused then.
pub fn set_up_file(rt: &HostRuntime, setting: Setting) -> Result<(), HallFault>
    ensures { OnOk result ((setting.entry.house.0 ≢ 0) × (size_good setting.entry.sectors ≡ true)) }
{
    if setting.house.0 == 0 {
        return Err(HallFault::SetUp(ExchangeFault::from(Refusal::NoHouse)));
    }
    let size = ImageSize::new(setting.sectors).ok_or(HallFault::Sectors)?;
    match setting.mirror {
        None => set_up_one(rt, setting, size)?,
        Some(other) => set_up_two(rt, setting, other, size)?,
    }
    Ok(print_setting(rt, setting)?)
}
