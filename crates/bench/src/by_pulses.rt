use crate::counted::Counted;
use crate::pulses::Pulses;
use crate::report::Report;
use anyhow::{bail, ensure};
use base::crc::{crc16, crc16_after};
use base::{Hex, RegistrationNumber};
use chip::RomCommand;
use kinds::SealedTag;
use memory::MemoryCommand;
use rig::Steps;
use samples::numbers::{CLUTCH, gearbox_number};
use samples::tags::{Tag, tag_of};

// The row that takes the clutch values.
const ROW: u16 = 0x0040;

// The status of a scratchpad that took a whole row, and what a tag says once it has programmed.
const WHOLE: u8 = 0x07;

const PROGRAMMED: u8 = 0xAA;

// A gearbox tag alone on its line, and its number.
#[derive(Drop)]
struct ByPulses<'a> {
    report: Report<'a>,
    pulses: Pulses<Tag<SealedTag>>,
    number: RegistrationNumber,
}

// From the number to the row read back, by pulses alone.
pub fn run(report: Report<'_>) -> anyhow::Result<Report<'_>> {
    let number = gearbox_number();
    let mut driven = ByPulses {
        report,
        pulses: Pulses::new(tag_of::<SealedTag>(number, &[0xFF; 136])?),
        number,
    };
    driven.report.begin("the same on a new tag, pulse by pulse, by resets, slots and a dwell")?;
    driven.power()?;
    driven.identify()?;
    driven.write_scratchpad()?;
    driven.read_scratchpad()?;
    driven.copy_scratchpad()?;
    driven.read_memory()?;
    driven.end()?;
    Ok(driven.report)
}

impl ByPulses<'_> {
    fn power(&mut self) -> anyhow::Result<()> {
        ensure!(!self.pulses.reset()?, "a tag without power is present");
        self.report.rt.println("Reset: no tag is present.")?;
        self.pulses.power_up();
        self.report.rt.println("Power up: done.")?;
        Ok(())
    }

    fn identify(&mut self) -> anyhow::Result<()> {
        self.pulses.begin()?;
        self.pulses.send(&[RomCommand::ReadRom.byte()])?;
        let bytes = self.pulses.read::<8>()?;
        ensure!(bytes == self.number.bytes(), "another number");
        println!(self.report.rt; "Read ROM, 33h: the tag's number is {}.", Hex(&bytes))?;
        Ok(())
    }

    fn write_scratchpad(&mut self) -> anyhow::Result<()> {
        let [low, high] = ROW.to_le_bytes();
        let [a, b, c, d, e, f, g, h] = CLUTCH;
        let write = MemoryCommand::WriteScratchpad.byte();
        let sent = [write, low, high, a, b, c, d, e, f, g, h];
        self.pulses.select(self.number, &sent)?;
        let sum = u16::from_le_bytes(self.pulses.read::<2>()?);
        ensure!(sum == !crc16(&sent), "wrong check sum after 0Fh");
        println!(self.report.rt;
            "Write scratchpad, 0Fh, with {} for row {ROW:04X}h: the inverted CRC-16 {sum:04X}h is right.",
            Hex(&CLUTCH)
        )?;
        Ok(())
    }

    fn read_scratchpad(&mut self) -> anyhow::Result<()> {
        let command = [MemoryCommand::ReadScratchpad.byte()];
        self.pulses.select(self.number, &command)?;
        let told = self.pulses.read::<11>()?;
        let sum = u16::from_le_bytes(self.pulses.read::<2>()?);
        let right = !crc16_after(crc16(&command), &told);
        ensure!(sum == right, "wrong check sum after AAh");
        let [low, high] = ROW.to_le_bytes();
        let [a, b, c, d, e, f, g, h] = CLUTCH;
        ensure!(
            told == [low, high, WHOLE, a, b, c, d, e, f, g, h],
            "the scratchpad is not as written"
        );
        println!(self.report.rt;
            "Read scratchpad, AAh: address {}, status {:02X}h, bytes {}; the inverted CRC-16 {sum:04X}h is right.",
            Hex(&told[..2]),
            told[2],
            Hex(&told[3..])
        )?;
        Ok(())
    }

    fn copy_scratchpad(&mut self) -> anyhow::Result<()> {
        let [low, high] = ROW.to_le_bytes();
        let copy = MemoryCommand::CopyScratchpad.byte();
        self.pulses.select(self.number, &[copy, low, high, WHOLE])?;
        let Err(fault) = self.pulses.reset() else {
            bail!("a programming tag let a reset pass");
        };
        self.report.count_refusal();
        let refusal = fault.refusal();
        println!(self.report.rt;
            "Copy scratchpad, 55h, and a reset then: refused with {refusal}."
        )?;
        self.pulses.dwell();
        let [said] = self.pulses.read::<1>()?;
        ensure!(said == PROGRAMMED, "the tag has not programmed");
        println!(self.report.rt;
            "Dwell, and a byte read then: {said:02X}h, the tag has programmed."
        )?;
        Ok(())
    }

    fn read_memory(&mut self) -> anyhow::Result<()> {
        let [low, high] = ROW.to_le_bytes();
        let read = MemoryCommand::ReadMemory.byte();
        self.pulses.select(self.number, &[read, low, high])?;
        let found = self.pulses.read::<8>()?;
        ensure!(found == CLUTCH, "the row read is not the row written");
        println!(self.report.rt; "Read memory, F0h, of row {ROW:04X}h: {}.", Hex(&found))?;
        self.pulses.begin()
    }

    // The pulses made are the steps that the rig has counted.
    fn end(&mut self) -> anyhow::Result<()> {
        let steps = self.pulses.steps();
        let resets = self.pulses.resets;
        let dwells = self.pulses.dwells;
        let slots = self.pulses.slots;
        let made = resets.saturating_add(dwells).saturating_add(slots);
        ensure!(made == steps as usize, "a pulse was not counted");
        println!(self.report.rt;
            "Done: the row read is the row written, in {}: {}, {}, {}.",
            Steps(steps),
            Counted(resets, "reset"),
            Counted(dwells, "dwell"),
            Counted(slots, "slot")
        )?;
        self.report.count_pulses(made);
        self.report.close();
        Ok(())
    }
}
