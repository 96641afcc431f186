use base::Refusal;
use history::Answer;
use rom_search::SearchFault;
use rom_search::job::MOST_PLACES;

// What a search found: how many numbers, in the first places of its list, and the refusal that ended it.
#[derive(Clone, Copy)]
pub struct Found {
    pub refusal: Option<Refusal>,
    pub count: u8,
    places: [u64; MOST_PLACES],
}

impl Found {
    pub fn of(outcome: Result<(u8, u32), SearchFault>, places: [u64; MOST_PLACES]) -> Found {
        match outcome {
            Ok((count, _)) => Found {
                refusal: None,
                count,
                places,
            },
            Err(fault) => Found {
                refusal: Some(fault.refused().refusal),
                count: fault.found(),
                places,
            },
        }
    }

    // What an answer has of it; an answer that is no list has nothing.
    pub fn in_answer(answer: Answer) -> Option<Found> {
        match answer {
            Answer::Listed { outcome, places } => Some(Found::of(outcome, places)),
            _ => None,
        }
    }

    pub fn numbers(&self) -> &[u64] {
        self.places.get(..self.count as usize).unwrap_or(&[])
    }

    // Whether these numbers were found, and the search was then refused or not.
    pub fn is(&self, numbers: &[u64], refusal: Option<Refusal>) -> bool {
        self.numbers() == numbers && self.refusal == refusal
    }
}
