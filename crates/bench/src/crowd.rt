use crate::calls::list;
use crate::counted::Counted;
use crate::expected::Expected::Done;
use crate::found::Found;
use crate::report::Report;
use crate::session::Session;
use anyhow::{bail, ensure};
use base::{Refusal, RegistrationNumber};
use history::Call;
use line::LineArray;
use rom_search::job::MOST_PLACES;
use samples::plugs::{FAMILY, MANY, Plug, many_plugs};

// Practice plugs of one family, one more than a search finds.
#[derive(Drop)]
struct Crowd<'a> {
    session: Session<'a, LineArray<Plug, MANY>>,
}

pub fn run(report: Report<'_>) -> anyhow::Result<Report<'_>> {
    let plugs = many_plugs()?;
    let mut crowd = Crowd {
        session: Session::new(report, plugs),
    };
    crowd.find()?;
    Ok(crowd.session.report)
}

impl Crowd<'_> {
    fn find(&mut self) -> anyhow::Result<()> {
        self.session.report.begin(format_args!(
            "{MANY} practice plugs share a line, one more than a search finds; their family is {FAMILY:02X}h, their serial numbers are 0 to {}",
            MANY - 1
        ))?;
        self.session.ask(&[(Call::PowerUp, Done)])?;
        let Some(found) = Found::in_answer(self.session.ask_one(list(100))?) else {
            bail!("a search answered no list");
        };
        ensure!(
            found.refusal == Some(Refusal::NoPlace),
            "the list was not full"
        );
        let mut count: usize = 0;
        for word in found.numbers() {
            let number = RegistrationNumber::try_from(*word)?;
            ensure!(number.family() == FAMILY, "a number of another family");
            count = count.saturating_add(1);
        }
        ensure!(count == MOST_PLACES, "too few numbers");
        let numbers = Counted(count, "number");
        self.session
            .report
            .end_calls(format_args!("{numbers} of the family were found"))?;
        Ok(())
    }
}
