use crate::calls::{list, order, read};
use crate::expected::Expected::{Done, Found, Held, Present, Row};
use crate::report::Report;
use crate::session::Session;
use base::RegistrationNumber;
use history::Call;
use kinds::SealedTag;
use samples::numbers::{CLUTCH, GEARBOX, gearbox_number};
use samples::tags::{Tag, tag_of};

// A gearbox tag alone on its line, and its number. Its bytes are all FFh.
#[derive(Drop)]
struct Gearbox<'a> {
    session: Session<'a, Tag<SealedTag>>,
    number: RegistrationNumber,
}

pub fn run(report: Report<'_>) -> anyhow::Result<Report<'_>> {
    let number = gearbox_number();
    let tag = tag_of::<SealedTag>(number, &[0xFF; 136])?;
    let mut gearbox = Gearbox {
        session: Session::new(report, tag),
        number,
    };
    gearbox.order_and_read()?;
    Ok(gearbox.session.report)
}

impl Gearbox<'_> {
    fn order_and_read(&mut self) -> anyhow::Result<()> {
        self.session.report.begin(
            "the gearbox tag gets power and is found; its clutch values are ordered to row 0040h and read back",
        )?;
        let number = self.number;
        self.session.ask(&[
            (Call::Reset, Present(false)),
            (Call::PowerUp, Done),
            (Call::Reset, Present(true)),
            (list(8), Found(&[GEARBOX])),
            (order(number, 0x40, CLUTCH), Held { programmed: true }),
            (read(number, 0x40), Row(CLUTCH)),
        ])?;
        self.session.report.end_calls(
            "no other tag was found, and the row read is the row ordered",
        )?;
        Ok(())
    }
}
