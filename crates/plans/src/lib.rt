//! Tests of fuses and plans, by tables. Nothing here but tests: they are many for the crates that they try.
#![tactic(auto)]

#[cfg(test)]
mod tests {
    use device::{Device, DeviceFault};
    use drives::{Drive, Schedule};
    use image::{Fate, Fuse, Plan};
    use std::test::Fail;

    // A plan's number, and the fates of its first three writes.
    const FATES: [(u32, Fate, Fate, Fate); 8] = [
        (0, Fate::Dropped, Fate::Dropped, Fate::Dropped),
        (1, Fate::Kept, Fate::Dropped, Fate::Dropped),
        (2, Fate::Torn, Fate::Dropped, Fate::Dropped),
        (3, Fate::Kept, Fate::Dropped, Fate::Dropped),
        (4, Fate::Dropped, Fate::Kept, Fate::Dropped),
        (9, Fate::Kept, Fate::Torn, Fate::Dropped),
        (32, Fate::Dropped, Fate::Dropped, Fate::Torn),
        (4294967295, Fate::Kept, Fate::Kept, Fate::Kept),
    ];

    #[test]
    fn fates_by_bits(rt: HostRuntime) {
        for (bits, first, second, third) in FATES {
            let plan = Plan { bits };
            assert_eq!(rt; plan.fate(), first);
            assert_eq!(rt; plan.later().fate(), second);
            assert_eq!(rt; plan.later().later().fate(), third);
        }
    }

    // What a sector reads as: its first byte, or 255 for torn, 254 for a cut and 253 for past the size. Numbers, and no enum:
    // they are the values of the tests, which a rule of the project keeps as they are.
    fn peek<D: Device>(device: &mut D, sector: usize) -> u8 {
        let mut buffer = [0; 512];
        match device.read(sector, &mut buffer) {
            Ok(()) => buffer[0],
            Err(DeviceFault::OutOfRange(_)) => 253,
            Err(DeviceFault::Cut(_)) => 254,
            Err(DeviceFault::Torn(_)) => 255,
        }
    }

    // A plan's number, and what sectors 0 and 1 then read as: 7 waits for sector 0, and 8 for sector 1 is in course.
    const CUTS: [(u32, u8, u8); 8] = [
        (0, 0, 0),
        (1, 7, 0),
        (2, 255, 0),
        (3, 7, 0),
        (4, 0, 8),
        (8, 0, 255),
        (10, 255, 255),
        (13, 7, 8),
    ];

    #[test]
    fn cuts_of_a_write(rt: HostRuntime) -> Result<(), Fail> {
        for (bits, first, second) in CUTS {
            let mut image = [0; 1026];
            let mut drive = Drive::write_back(rt.alloc(), &mut image)?;
            drive.put_fuse(Fuse {
                left: 1,
                plan: Plan { bits },
            });
            assert!(rt; drive.write(0, &[7; 512]).is_ok());
            assert!(rt; drive.write(1, &[8; 512]).is_err());
            assert_eq!(rt; peek(&mut drive, 0), 254);
            drive.wake();
            assert_eq!(rt; peek(&mut drive, 0), first);
            assert_eq!(rt; peek(&mut drive, 1), second);
        }
        Ok(())
    }

    // Nine writes to nine sectors, the ninth cut: bits 16 and 17 are its own, and nothing was put down before.
    #[test]
    fn ninth_write_in_course(rt: HostRuntime) -> Result<(), Fail> {
        let mut image = [0; 4617];
        let mut drive = Drive::write_back(rt.alloc(), &mut image)?;
        drive.put_fuse(Fuse {
            left: 8,
            plan: Plan { bits: 65536 },
        });
        for sector in 0..8usize {
            assert!(rt; drive.write(sector, &[9; 512]).is_ok());
        }
        assert!(rt; drive.write(8, &[9; 512]).is_err());
        drive.wake();
        for sector in 0..8usize {
            assert_eq!(rt; peek(&mut drive, sector), 0);
        }
        assert_eq!(rt; peek(&mut drive, 8), 9);
        Ok(())
    }

    // Only what is within the size and meets power counts; a torn sector counts.
    #[test]
    fn what_counts(rt: HostRuntime) {
        let mut image = [1; 514];
        let mut drive = Drive::direct(&mut image);
        drive.put_fuse(Fuse {
            left: 2,
            plan: Plan { bits: 1 },
        });
        assert_eq!(rt; peek(&mut drive, 1), 253);
        assert_eq!(rt; peek(&mut drive, 0), 255);
        assert!(rt; drive.sync().is_ok());
        assert!(rt; drive.write(0, &[5; 512]).is_err());
        assert_eq!(rt; peek(&mut drive, 1), 253);
        assert_eq!(rt; peek(&mut drive, 0), 254);
        drive.wake();
        assert_eq!(rt; peek(&mut drive, 0), 5);
    }

    // Power is lost at the start and again at the first read after the wake; then the list is used up.
    #[test]
    fn one_after_another(rt: HostRuntime) {
        let fuses = [
            Fuse {
                left: 0,
                plan: Plan { bits: 0 },
            },
            Fuse {
                left: 0,
                plan: Plan { bits: 0 },
            },
        ];
        let mut image = [0; 513];
        let mut device = Schedule::new(Drive::direct(&mut image), &fuses);
        assert_eq!(rt; peek(&mut device, 0), 254);
        device.wake();
        assert_eq!(rt; peek(&mut device, 0), 254);
        device.wake();
        assert_eq!(rt; peek(&mut device, 0), 0);
    }

    // Fewer bytes than a sector has are a device of size 0.
    #[test]
    fn small_images(rt: HostRuntime) {
        let mut none = [0; 0];
        assert_eq!(rt; Drive::direct(&mut none).size(), 0);
        let mut short = [0; 512];
        assert_eq!(rt; Drive::direct(&mut short).size(), 0);
        let mut over = [0; 1025];
        assert_eq!(rt; Drive::direct(&mut over).size(), 1);
    }
}
