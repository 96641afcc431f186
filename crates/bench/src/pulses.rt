use anyhow::ensure;
use base::RegistrationNumber;
use chip::RomCommand;
use line::Line;
use rig::{Rig, RigFault};
use wire::bytes::{read_bytes, send_bytes};

// A rig driven pulse by pulse, and the pulses made since they were last counted anew.
#[derive(Drop)]
pub struct Pulses<L> {
    rig: Rig<L>,
    pub resets: usize,
    pub slots: usize,
    pub dwells: usize,
}

impl<L: Line> Pulses<L> {
    pub fn new(line: L) -> Pulses<L> {
        Pulses {
            rig: Rig::new(line),
            resets: 0,
            slots: 0,
            dwells: 0,
        }
    }

    // What the rig has counted.
    pub fn steps(&self) -> u32 {
        self.rig.steps()
    }

    // Powers the line up, and counts from here on.
    pub fn power_up(&mut self) {
        self.rig.power_up();
        self.rig.begin_count();
        self.resets = 0;
        self.slots = 0;
        self.dwells = 0;
    }

    // A refused reset is none.
    pub fn reset(&mut self) -> Result<bool, RigFault> {
        let present = self.rig.reset()?;
        self.resets = self.resets.saturating_add(1);
        Ok(present)
    }

    pub fn dwell(&mut self) {
        self.rig.dwell();
        self.dwells = self.dwells.saturating_add(1);
    }

    // A reset that must find a tag.
    pub fn begin(&mut self) -> anyhow::Result<()> {
        ensure!(self.reset()?, "no tag is present");
        Ok(())
    }

    // A reset, 55h with the number, and the bytes of a command.
    pub fn select(&mut self, number: RegistrationNumber, command: &[u8]) -> anyhow::Result<()> {
        self.begin()?;
        self.send(&[RomCommand::MatchRom.byte()])?;
        self.send(&number.bytes())?;
        self.send(command)?;
        Ok(())
    }

    pub fn send(&mut self, bytes: &[u8]) -> Result<(), RigFault> {
        send_bytes(&mut self.rig, bytes)?;
        self.count_bytes(bytes.len());
        Ok(())
    }

    pub fn read<const N: usize>(&mut self) -> Result<[u8; N], RigFault> {
        let bytes = read_bytes::<L, N>(&mut self.rig)?;
        self.count_bytes(N);
        Ok(bytes)
    }

    // A slot for each bit.
    fn count_bytes(&mut self, bytes: usize) {
        self.slots = self.slots.saturating_add(bytes.saturating_mul(8));
    }
}
