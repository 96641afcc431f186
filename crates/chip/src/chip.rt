ghost use Rattle.std.specs.Prelude.{◌≡◌};
ghost use Rattle.memory.specs.Memories.{protocols};
ghost use Rattle.chip.specs.Chips.{on, at, select, run_command, command_of};
ghost use Rattle.chip.specs.ChipStates.{made_chip, has_power, is_busy, pull_of, take_bit, reset_chip, dwell_chip, cut_chip, power_chip};
ghost use Rattle.chip.specs.ChipModel.{model, phase_of};

use crate::rom_phase::RomPhase::{
    Command, Idle, MatchBits, SearchBit, SearchComplement, SearchDirection, Selected, SendRom,
};
use crate::rom_phase::{Live, RomPhase};
use base::RegistrationNumber;
use base::bit_queue::{Incoming, Outgoing};
use memory::Protocol;

// A chip: its registration number, what exists under power only, and the memory behind its number.
#[derive(Drop)]
pub struct Chip<P> {
    number: RegistrationNumber,
    live: Option<Live>,
    memory: P,
}

impl<P: Protocol> Chip<P> {
    // A chip without power.
    pub fn new(number: RegistrationNumber, memory: P) -> Chip<P>
        ensures { model P.memory result ≡ made_chip number.word (P.memory memory) }
    {
        Chip {
            number,
            live: None,
            memory,
        }
    }

    pub fn has_power(&self) -> bool
        ensures { result ≡ has_power (model P.memory self.now) }
    {
        self.live.is_some()
    }

    // It has power and is programming.
    pub fn is_busy(&self) -> bool
        ensures { result ≡ is_busy (model P.memory self.now) }
    {
        match self.live {
            Some(
                Live {
                    phase: RomPhase::Selected,
                    ..
                },
            ) => self.memory.is_programming(),
            _ => false,
        }
    }

    // The bit that it pulls, true where it pulls nothing.
    pub fn pull(&self) -> bool
        ensures { result ≡ pull_of (model P.memory self.now) }
    {
        let Some(Live { phase, .. }) = self.live else {
            return true;
        };
        match phase {
            RomPhase::SendRom { rest } | RomPhase::SearchBit { rest } => rest.bit(),
            RomPhase::SearchComplement { rest } => !rest.bit(),
            RomPhase::Selected => self.memory.pull(),
            _ => true,
        }
    }

    pub fn power_up(&mut self)
        ensures { model P.memory self.new ≡ power_chip (model P.memory self.old) }
    {
        if self.live.is_none() {
            self.enter(false, RomPhase::Idle);
            self.memory.power_up();
        }
    }

    pub fn reset(&mut self)
        ensures { model P.memory self.new ≡ reset_chip (model P.memory self.old) }
    {
        match self.live {
            Some(Live { rc, .. }) if !self.is_busy() => self.enter(
                rc,
                RomPhase::Command {
                    bits: Incoming::none(),
                },
            ),
            _ => {}
        }
    }

    pub fn dwell(&mut self)
        ensures { model P.memory self.new ≡ dwell_chip (model P.memory self.old) }
    {
        if self.is_busy() {
            self.memory.dwell();
        }
    }

    pub fn cut(&mut self, mask: u64)
        ensures { model P.memory self.new ≡ cut_chip mask (model P.memory self.old) }
    {
        if self.is_busy() {
            self.memory.cut(mask);
        }
        self.live = None;
    }

    // One taken bit.
    #[inline(always)]
    pub fn take(&mut self, bit: bool)
        ensures { model P.memory self.new ≡ take_bit bit (model P.memory self.old) }
    {
        let Some(Live { rc, phase }) = self.live else {
            return;
        };
        match (phase, bit) {
            (Idle, _) => {}
            (Command { mut bits }, bit) => match bits.push(bit) {
                None => self.enter(rc, Command { bits }),
                Some(byte) => self.run_command(rc, byte),
            },
            (SendRom { mut rest }, _) => {
                if rest.advance() {
                    self.enter(rc, SendRom { rest });
                } else {
                    self.select(rc);
                }
            }
            (MatchBits { mut rest }, bit) => {
                if rest.bit() != bit {
                    self.enter(rc, Idle);
                } else if rest.advance() {
                    self.enter(rc, MatchBits { rest });
                } else {
                    self.select(true);
                }
            }
            (SearchBit { rest }, _) => self.enter(rc, SearchComplement { rest }),
            (SearchComplement { rest }, _) => self.enter(rc, SearchDirection { rest }),
            (SearchDirection { mut rest }, bit) => {
                if rest.bit() != bit {
                    self.enter(rc, Idle);
                } else if rest.advance() {
                    self.enter(rc, SearchBit { rest });
                } else {
                    self.select(true);
                }
            }
            (Selected, bit) => self.memory.take(bit),
        }
    }

    // On to a phase.
    fn enter(&mut self, rc: bool, phase: RomPhase)
        ensures chip { model P.memory self.new ≡ at protocols (model P.memory self.old) (on rc (phase_of phase)) }
        ensures memory { self.new.memory ≡ self.old.memory }
    {
        self.live = Some(Live { rc, phase });
    }

    // The memory phase begins.
    fn select(&mut self, rc: bool)
        ensures { model P.memory self.new ≡ select protocols (model P.memory self.old) rc }
    {
        self.enter(rc, RomPhase::Selected);
        self.memory.select();
    }

    // A command of the ROM phase.
    fn run_command(&mut self, rc: bool, byte: u8)
        ensures { model P.memory self.new ≡ run_command protocols (command_of byte) rc (model P.memory self.old) }
    {
        let rest = Outgoing::from(self.number.word());
        match byte {
            // Read ROM.
            0x33 => self.enter(false, RomPhase::SendRom { rest }),
            // Match ROM.
            0x55 => self.enter(false, RomPhase::MatchBits { rest }),
            // Search ROM.
            0xF0 => self.enter(false, RomPhase::SearchBit { rest }),
            // Skip ROM.
            0xCC => self.select(false),
            // Resume.
            0xA5 if rc => self.select(true),
            _ => self.enter(rc, RomPhase::Idle),
        }
    }
}
