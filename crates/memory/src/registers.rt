ghost use Rattle.std.specs.Prelude.{◌≡◌, ◌+◌, ◌≤◌};
ghost use Rattle.memory.specs.Scratchpads.{fresh, status, report, row_of};
ghost use Rattle.memory.specs.RegistersModel.{regs_of, Nexts};

use crate::row_offset::Offset;
use kinds::row::ROW;

#[derive(Clone, Copy)]
pub struct Registers {
    pub ta1: u8,
    pub ta2: u8,
    pub e: Offset,
    pub pf: bool,
    pub aa: bool,
    pub pad: [u8; ROW],
}

impl Registers {
    // As power-up leaves them.
    pub fn fresh() -> Registers
        ensures { regs_of result ≡ fresh }
    {
        Registers {
            ta1: 0,
            ta2: 0,
            e: Offset::of(0),
            pf: true,
            aa: false,
            pad: [0xff; ROW],
        }
    }

    // E/S: the ending offset and the two flags.
    pub fn status(&self) -> u8
        ensures { result ≡ status (regs_of self.now) }
    {
        let mut all = self.e.at();
        if self.pf {
            all += 0x20;
        }
        if self.aa {
            all += 0x80;
        }
        all
    }

    // The first address of the target's row.
    pub fn row(&self) -> u16
        ensures value { result ≡ row_of (regs_of self.now) }
        ensures bound { result + 8 ≤ 65536 }
    {
        u16::from_le_bytes([self.ta1 - self.ta1 % 8, self.ta2])
    }

    // Byte `next` of what AAh sends before the sum.
    pub fn reported(&self, next: u8) -> Option<u8>
        ensures { Nexts (report (regs_of self.now)) next result }
    {
        // Each byte from another register.
        match next {
            0 => Some(self.ta1),
            1 => Some(self.ta2),
            2 => Some(self.status()),
            _ => {
                let at = (self.ta1 % 8) as usize + (next - 3) as usize;
                if at < ROW { Some(self.pad[at]) } else { None }
            }
        }
    }
}
