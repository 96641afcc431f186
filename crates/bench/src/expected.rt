use crate::found::Found;
use base::Refusal;
use history::Answer;
use kinds::row::ROW;

// What a task expects of a call.
#[derive(Clone, Copy)]
pub enum Expected<'a> {
    Done,
    Present(bool),
    Bit(bool),
    // The row that is read.
    Row([u8; ROW]),
    // An order is held, and the tag has programmed or not.
    Held { programmed: bool },
    Refused(Refusal),
    // A search finds these numbers and no others.
    Found(&'a [u64]),
    // A search is refused when it has found these numbers.
    FoundThen(&'a [u64], Refusal),
}

impl Expected<'_> {
    pub fn is_met(&self, answer: Answer) -> bool {
        match (*self, answer) {
            (Expected::Done, Answer::Done) => true,
            (Expected::Present(present), Answer::Presence(outcome)) => outcome == Ok(present),
            (Expected::Bit(bit), Answer::Bit(outcome)) => outcome == Ok(bit),
            (Expected::Row(row), Answer::Row(Ok(told))) => {
                let found = told.0;
                found == row
            }
            (Expected::Held { programmed }, Answer::Judged(Ok((said, _)))) => said == programmed,
            (Expected::Refused(refusal), _) => refusal_of(answer) == Some(refusal),
            (Expected::Found(numbers), Answer::Listed { outcome, places }) => {
                Found::of(outcome, places).is(numbers, None)
            }
            (Expected::FoundThen(numbers, refusal), Answer::Listed { outcome, places }) => {
                Found::of(outcome, places).is(numbers, Some(refusal))
            }
            _ => false,
        }
    }
}

// The refusal of a call that was refused.
pub fn refusal_of(answer: Answer) -> Option<Refusal> {
    match answer {
        Answer::Presence(Err(refusal)) | Answer::Bit(Err(refusal)) => Some(refusal),
        Answer::Listed {
            outcome: Err(fault),
            ..
        } => Some(fault.refused().refusal),
        Answer::Row(Err(fault)) => Some(fault.refused().refusal),
        Answer::Judged(Err(fault)) => Some(fault.refused().0.refusal),
        _ => None,
    }
}
