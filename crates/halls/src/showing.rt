//! What a file holds.
use crate::faults::HallFault;
use crate::files::{fault_of, image_of};
use crate::journals::print_journal;
use crate::openings::{open_all, print_opening};
use crate::slots::print_slot;
use image::sectors::count;
use journal::layouts::Layout;
use journal::slots::Slot;
use records::refusals::Refusal;
use std::fs::File;

/// Prints what a file holds: its snapshots, its journal, and what an opening makes of them. The file is only read.
pub fn show_file(rt: &HostRuntime, name: &str) -> Result<(), HallFault> {
    let file = File::open(rt, name).map_err(|e| fault_of(rt.alloc(), name, e))?;
    let mut image = image_of(rt.alloc(), name, &file)?;
    show_image(rt, name, &mut image)
}

/// Prints what an image in memory holds, under a name. What an opening does is what one does to the lent image: an exchange is
/// opened on it, and replays all that it can.
pub fn show_image(rt: &HostRuntime, name: &str, image: &mut [u8]) -> Result<(), HallFault> {
    let sectors = count(image);
    let Some(layout) = Layout::new(sectors) else {
        return Err(HallFault::NoImage(String::from_str(rt.alloc(), name)?));
    };
    println!(rt; "{name}: {sectors} sectors")?;
    print_slot(rt, image, Slot::Zero)?;
    print_slot(rt, image, Slot::One)?;
    let openings = open_all(rt.alloc(), image)?;
    print_journal(rt, image, &layout, &openings)?;
    for opening in openings.iter() {
        print_opening(rt, opening)?;
    }
    if openings.is_empty() {
        let reason = Refusal::NoHeader.number();
        println!(rt; "an opening takes no slot: refused {reason}")?;
    }
    Ok(())
}
