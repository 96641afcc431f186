use crate::counted::Counted;
use crate::found::Found;
use base::Hex;
use history::Answer;
use kinds::row::ROW;
use order::OrderFault;
use reading::ReadFault;
use rig::Steps;
use rom_search::SearchFault;
use std::fmt;

// What is answered; of a search, how many numbers it found. An answer is data: one arm for each.
#[derive(Clone, Copy)]
pub struct AnswerText(pub Answer);

impl fmt::Display for AnswerText {
    fn fmt<W: fmt::Write>(&self, f: &mut fmt::Formatter<W>) -> fmt::Result {
        match self.0 {
            Answer::Presence(Ok(false)) => f.write_str("no tag is present"),
            Answer::Presence(Ok(true)) => f.write_str("a tag is present"),
            Answer::Bit(Ok(false)) => f.write_str("the bit is 0"),
            Answer::Bit(Ok(true)) => f.write_str("the bit is 1"),
            Answer::Presence(Err(refusal)) | Answer::Bit(Err(refusal)) => {
                write!(f, "refused with {refusal}")
            }
            Answer::Done => f.write_str("done"),
            Answer::Listed { outcome, places } => {
                say_list(f, outcome, Found::of(outcome, places).count)
            }
            Answer::Row(outcome) => say_row(f, outcome),
            Answer::Judged(outcome) => say_verdict(f, outcome),
        }
    }
}

fn say_list<W: fmt::Write>(
    f: &mut fmt::Formatter<W>,
    outcome: Result<(u8, u32), SearchFault>,
    count: u8,
) -> fmt::Result {
    if let Err(fault) = outcome {
        write!(f, "refused with {fault}; ")?;
    }
    match count {
        0 => f.write_str("no numbers found")?,
        _ => write!(f, "{} found", Counted(count as usize, "number"))?,
    }
    match outcome {
        Ok((_, steps)) => write!(f, ", in {}", Steps(steps)),
        Err(_) => Ok(()),
    }
}

fn say_row<W: fmt::Write>(
    f: &mut fmt::Formatter<W>,
    outcome: Result<([u8; ROW], u32), ReadFault>,
) -> fmt::Result {
    match outcome {
        Ok(told) => {
            let row = told.0;
            write!(f, "{}, in {}", Hex(&row), Steps(told.1))
        }
        Err(fault) => write!(f, "refused with {fault}"),
    }
}

fn say_verdict<W: fmt::Write>(
    f: &mut fmt::Formatter<W>,
    outcome: Result<(bool, u32), OrderFault>,
) -> fmt::Result {
    match outcome {
        Ok((true, steps)) => write!(f, "held and programmed, in {}", Steps(steps)),
        Ok((false, steps)) => write!(f, "held, not programmed, in {}", Steps(steps)),
        Err(fault) => write!(f, "refused with {fault}"),
    }
}
