ghost use Rattle.std.specs.Prelude.{◌≡◌, [], ◌∷◌, drop};
ghost use Rattle.base.specs.Bits.{bits_all};
ghost use Rattle.base.specs.Crc.{crc16};
ghost use Rattle.memory.specs.Memories.{padded};
ghost use Rattle.memory.specs.Scratchpads.{cut_pad, fresh, on, sending, idle, working, take_byte, command_of, run_command, load_data, report};
ghost use Rattle.memory.specs.RegistersModel.{regs_of};
ghost use Rattle.memory.specs.ScratchpadModel.{model, doing, closing, Awaits, awaited};

use crate::memory_phase::{Await, Phase};
use crate::memory_protocol::Protocol;
use crate::registers::Registers;
use crate::row_offset::Offset;
use base::bit_queue::{Incoming, Outgoing};
use base::crc::{crc16, crc16_more};
use kinds::Kind;
use kinds::row::WHOLE_ROW;

// The memory of a chip: registers and scratchpad beside the kind.
#[derive(Drop)]
pub struct ScratchpadMemory<K> {
    phase: Phase,
    regs: Registers,
    kind: K,
}

impl<K: Kind> ScratchpadMemory<K> {
    pub fn new(kind: K) -> ScratchpadMemory<K>
        ensures { model K.rules K.bytes result ≡ record { rules = K.rules; bytes = K.bytes kind; work = on fresh idle } }
    {
        ScratchpadMemory {
            phase: Phase::Idle,
            regs: Registers::fresh(),
            kind,
        }
    }

    // A row being programmed takes the scratchpad through a mask.
    fn program_row(&mut self, mask: u64)
        ensures bytes { model K.rules K.bytes self.new ≡ cut_pad (model K.rules K.bytes self.old) mask }
        ensures phase { self.new.phase ≡ self.old.phase }
        ensures registers { self.new.regs ≡ self.old.regs }
    {
        if let Phase::Programming = self.phase {
            let row = self.regs.row();
            let new = self.regs.pad;
            self.kind.program(row, &new, mask);
        }
    }

    // Sends the report from byte `next` on, then the sum.
    fn report_from(&self, next: u8, sum: u16) -> Phase
        ensures { doing (regs_of self.now.regs) (K.bytes self.now.kind) result ≡ sending (bits_all (closing sum (drop next (report (regs_of self.now.regs))))) }
    {
        match self.regs.reported(next) {
            Some(byte) => Phase::SendReport {
                next: next + 1,
                sum: crc16_more(sum, byte),
                out: Outgoing::from(byte),
            },
            None => Phase::SendSum {
                rest: Outgoing::from(!sum),
            },
        }
    }

    // Sends the memory from an address on, then ones.
    fn memory_from(&self, address: u16) -> Phase
        ensures { doing (regs_of self.now.regs) (K.bytes self.now.kind) result ≡ sending (bits_all (drop address (K.bytes self.now.kind))) }
    {
        if (address as usize) < K::N {
            Phase::SendMemory {
                next: address + 1,
                out: Outgoing::from(self.kind.read(address)),
            }
        } else {
            Phase::SendOnes
        }
    }

    // A complete byte.
    fn take_byte(&mut self, what: Await, byte: u8)
        ensures { model K.rules K.bytes self.new ≡ working (model K.rules K.bytes self.old) (take_byte K.rules (K.bytes self.old.kind) (awaited what) byte (regs_of self.old.regs)) }
    {
        match what {
            Await::Command => self.run_command(byte),
            Await::LoadLow => {
                self.regs.ta1 = byte;
                self.regs.e = Offset::of(byte);
                self.phase = awaiting(Await::LoadHigh);
            }
            Await::LoadHigh => {
                self.regs.ta2 = byte;
                let sum = head_sum(self.regs.ta1, byte);
                self.phase = awaiting(Await::LoadData {
                    offset: Offset::of(self.regs.ta1),
                    sum,
                });
            }
            Await::LoadData { offset, sum } => self.data_byte(offset, sum, byte),
            Await::CopyLow => self.phase = awaiting(Await::CopyHigh { low: byte }),
            Await::CopyHigh { low } => self.phase = awaiting(Await::CopyStatus { low, high: byte }),
            Await::CopyStatus { low, high }
                if low == self.regs.ta1
                    && high == self.regs.ta2
                    && byte == self.regs.status()
                    && !self.regs.pf
                    && self.kind.may_copy(self.regs.row()) => {
                self.regs.aa = true;
                self.phase = Phase::Programming;
            }
            Await::CopyStatus { .. } => self.phase = Phase::Idle,
            Await::ReadLow => self.phase = awaiting(Await::ReadHigh { low: byte }),
            Await::ReadHigh { low } => self.phase = self.memory_from(u16::from_le_bytes([
                low, byte,
            ])),
        }
    }

    // A command of the memory phase.
    fn run_command(&mut self, byte: u8)
        ensures { model K.rules K.bytes self.new ≡ working (model K.rules K.bytes self.old) (run_command K.rules (K.bytes self.old.kind) (command_of byte) (regs_of self.old.regs)) }
    {
        match byte {
            // Write Scratchpad.
            0x0F => {
                self.regs.pf = true;
                self.regs.aa = false;
                self.phase = awaiting(Await::LoadLow);
            }
            // Read Scratchpad.
            0xAA => self.phase = self.report_from(0, crc16_more(0, byte)),
            // Copy Scratchpad.
            0x55 => self.phase = awaiting(Await::CopyLow),
            // Read Memory.
            0xF0 => self.phase = awaiting(Await::ReadLow),
            _ => self.phase = Phase::Idle,
        }
    }

    // The data byte at an offset of the target's row.
    fn data_byte(&mut self, offset: Offset, sum: u16, byte: u8)
        ensures { model K.rules K.bytes self.new ≡ working (model K.rules K.bytes self.old) (take_byte K.rules (K.bytes self.old.kind) (load_data offset.at sum) byte (regs_of self.old.regs)) }
    {
        let at = offset.at();
        let after_data = self.kind.load(self.regs.row() + at as u16, byte);
        self.regs.pad[at as usize] = after_data;
        self.regs.e = offset;
        let sum = crc16_more(sum, byte);
        match offset.next() {
            Some(offset) => self.phase = awaiting(Await::LoadData { offset, sum }),
            None => {
                self.regs.pf &= self.regs.ta1 % 8 != 0;
                self.phase = Phase::SendSum {
                    rest: Outgoing::from(!sum),
                };
            }
        }
    }
}

// The sum of what is sent before the data: the command 0Fh and the target.
fn head_sum(low: u8, high: u8) -> u16
    ensures { result ≡ crc16 0 (0x0F ∷ low ∷ high ∷ []) }
{
    crc16(&[0x0F, low, high])
}

// Begins to take a byte.
fn awaiting(what: Await) -> Phase
    ensures { Awaits what result }
{
    Phase::Taking {
        what,
        bits: Incoming::none(),
    }
}

impl<K: Kind> Protocol for ScratchpadMemory<K> {
    ghost memory = { λ p. padded (model K.Kind.rules K.Kind.bytes p) };

    fn power_up(&mut self) {
        self.phase = Phase::Idle;
        self.regs = Registers::fresh();
    }

    fn select(&mut self) {
        self.phase = awaiting(Await::Command);
    }

    #[inline(always)]
    fn take(&mut self, bit: bool) {
        match (&mut self.phase, bit) {
            (Phase::Idle | Phase::Programming | Phase::SendOnes, _) => {}
            (Phase::Taking { what, bits }, bit) => {
                if let Some(byte) = bits.push(bit) {
                    let what = *what;
                    self.take_byte(what, byte);
                }
            }
            (Phase::SendReport { next, sum, out }, _) => {
                if !out.advance() {
                    let (next, sum) = (*next, *sum);
                    self.phase = self.report_from(next, sum);
                }
            }
            (Phase::SendSum { rest }, _) => {
                if !rest.advance() {
                    self.phase = Phase::SendOnes;
                }
            }
            (Phase::SendMemory { next, out }, _) => {
                if !out.advance() {
                    let next = *next;
                    self.phase = self.memory_from(next);
                }
            }
            (Phase::Alternating { bit: sent }, _) => *sent = !*sent,
        }
    }

    fn pull(&self) -> bool {
        match self.phase {
            Phase::SendReport { out, .. } | Phase::SendMemory { out, .. } => out.bit(),
            Phase::SendSum { rest } => rest.bit(),
            Phase::Alternating { bit } => bit,
            _ => true,
        }
    }

    fn is_programming(&self) -> bool {
        matches!(self.phase, Phase::Programming)
    }

    fn dwell(&mut self) {
        self.program_row(WHOLE_ROW);
        if self.is_programming() {
            self.phase = Phase::Alternating { bit: false };
        }
    }

    fn cut(&mut self, mask: u64) {
        self.program_row(mask);
    }
}
