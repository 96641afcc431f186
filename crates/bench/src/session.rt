use crate::answer_text::AnswerText;
use crate::call_text::CallText;
use crate::expected::{Expected, refusal_of};
use crate::found::Found;
use crate::report::Report;
use anyhow::ensure;
use base::Hex;
use history::playing::play;
use history::{Answer, Call};
use line::Line;
use rig::Rig;
use std::io;

// A rig, and the report of what is asked of it and answered.
#[derive(Drop)]
pub struct Session<'a, L> {
    pub report: Report<'a>,
    rig: Rig<L>,
}

impl<'a, L: Line> Session<'a, L> {
    pub fn new(report: Report<'a>, line: L) -> Session<'a, L> {
        Session {
            report,
            rig: Rig::new(line),
        }
    }

    fn make(&mut self, call: Call) -> Answer {
        let mut answers = [Answer::Done];
        play(&mut self.rig, &[call], &mut answers);
        self.report.count_call();
        answers[0]
    }

    // Makes a call, and says what is asked and answered. Each number found has a line of its own.
    pub fn ask_one(&mut self, call: Call) -> io::Result<Answer> {
        let answer = self.make(call);
        println!(self.report.rt; "{}: {}.", CallText(call), AnswerText(answer))?;
        if let Some(found) = Found::in_answer(answer) {
            for word in found.numbers() {
                println!(self.report.rt; "  {}", Hex(&word.to_le_bytes()))?;
            }
        }
        if refusal_of(answer).is_some() {
            self.report.count_refusal();
        }
        Ok(answer)
    }

    // Makes calls one after another; each must answer what the task expects.
    pub fn ask(&mut self, calls: &[(Call, Expected<'_>)]) -> anyhow::Result<()> {
        for (call, expected) in calls {
            let answer = self.ask_one(*call)?;
            ensure!(
                expected.is_met(answer),
                "not the answer that the task expects"
            );
        }
        Ok(())
    }

    // Slots with the bits of these bytes, the lowest bit first, against which nobody pulls.
    pub fn send(&mut self, bytes: &[u8]) -> anyhow::Result<()> {
        let mut slots: usize = 0;
        for byte in bytes {
            for i in 0..u8::BITS {
                let bit = (byte >> i) & 1 == 1;
                let answer = self.make(Call::Slot(bit));
                ensure!(
                    Expected::Bit(bit).is_met(answer),
                    "a tag pulled against the master"
                );
                slots = slots.saturating_add(1);
            }
        }
        println!(self.report.rt; "Slots with the bits of {}: {slots} done.", Hex(bytes))?;
        Ok(())
    }
}
