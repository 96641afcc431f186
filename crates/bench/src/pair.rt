use crate::calls::{fuse, list, order, read};
use crate::expected::Expected::{Bit, Done, Found, FoundThen, Held, Present, Refused, Row};
use crate::report::Report;
use crate::session::Session;
use base::{Refusal, RegistrationNumber};
use history::Call;
use kinds::row::ROW;
use kinds::{PracticePlug, SealedTag};
use line::Joint;
use samples::numbers::{PLUG, SEALED, gearbox_number, plug_number, sealed_number};
use samples::plugs::Plug;
use samples::tags::{Tag, own_addresses, tag_of};

// What the plug's rows hold, what an order brings, and what is read past a tag's bytes.
const PLUG_ROW: [u8; ROW] = [0xA5; ROW];

const NEW: [u8; ROW] = [1, 2, 3, 4, 5, 6, 7, 8];

const ONES: [u8; ROW] = [0xFF; ROW];

// With 0Fh and row 0000h before them, these bytes have the CRC-16 0.
const SUM_ZERO: [u8; ROW] = [0x00, 0x00, 0x00, 0x00, 0x00, 0x00, 0x41, 0xF0];

// The copy of the plug's last row once more: no number, 55h, row 0008h and the status after a copy.
const COPY_AGAIN: [u8; 5] = [0xCC, 0x55, 0x08, 0x00, 0x87];

// A practice plug whose bytes are all A5h, joined with a sealed tag in which each byte is its own address;
// their numbers, and one that neither has.
#[derive(Drop)]
struct Pair<'a> {
    session: Session<'a, Joint<Plug, Tag<SealedTag>>>,
    plug: RegistrationNumber,
    sealed: RegistrationNumber,
    absent: RegistrationNumber,
}

pub fn run(report: Report<'_>) -> anyhow::Result<Report<'_>> {
    let plug = plug_number();
    let sealed = sealed_number();
    let left = tag_of::<PracticePlug>(plug, &[0xA5; 64])?;
    let right = tag_of::<SealedTag>(sealed, &own_addresses())?;
    let mut pair = Pair {
        session: Session::new(report, Joint::new(left, right)),
        plug,
        sealed,
        absent: gearbox_number(),
    };
    pair.find_and_read()?;
    pair.refuse_readings()?;
    pair.refuse_searches()?;
    pair.refuse_orders()?;
    pair.keep_busy()?;
    pair.read_what_is_left()?;
    Ok(pair.session.report)
}

impl Pair<'_> {
    fn find_and_read(&mut self) -> anyhow::Result<()> {
        self.session.report.begin(
            "a practice plug whose bytes are A5h and a sealed tag whose bytes are their own addresses share a line",
        )?;
        self.session.ask(&[
            (Call::PowerUp, Done),
            (list(8), Found(&[PLUG, SEALED])),
            (
                read(self.sealed, 0x40),
                Row([0x40, 0x41, 0x42, 0x43, 0x44, 0x45, 0x46, 0x47]),
            ),
            (read(self.sealed, 0x90), Row(ONES)),
            (read(self.plug, 0x38), Row(PLUG_ROW)),
            (read(self.plug, 0x40), Row(ONES)),
        ])?;
        self.session.report.end_calls(
            "both numbers were found, and each row read is that of its tag, FFh past its bytes",
        )?;
        Ok(())
    }

    fn refuse_readings(&mut self) -> anyhow::Result<()> {
        self.session.report.begin(
            "readings of a wrong row, of an absent tag, without power, and with power that fails on the way",
        )?;
        self.session.ask(&[
            (read(self.sealed, 0x03), Refused(Refusal::BadRow)),
            (read(self.absent, 0x00), Refused(Refusal::Garbled)),
            (Call::Cut(0), Done),
            (read(self.sealed, 0x40), Refused(Refusal::NoPresence)),
        ])?;
        for (count, refusal) in [
            (40, Refusal::Garbled),
            (100, Refusal::NoPresence),
            (200, Refusal::NoPresence),
            (266, Refusal::NoPresence),
        ] {
            self.session.ask(&[
                (Call::PowerUp, Done),
                (fuse(count, 0), Done),
                (read(self.sealed, 0x40), Refused(refusal)),
            ])?;
        }
        self.session.report.end_calls("no reading gave a row")?;
        Ok(())
    }

    fn refuse_searches(&mut self) -> anyhow::Result<()> {
        self.session.report.begin(
            "searches without power, with too few places, and with power that fails on the way",
        )?;
        self.session.ask(&[
            (list(8), FoundThen(&[], Refusal::NoPresence)),
            (Call::PowerUp, Done),
            (list(0), FoundThen(&[], Refusal::NoPlace)),
            (list(1), FoundThen(&[PLUG], Refusal::NoPlace)),
            (fuse(201, 0), Done),
            (list(8), FoundThen(&[PLUG], Refusal::NoPresence)),
            (Call::PowerUp, Done),
            (fuse(300, 0), Done),
            (list(8), FoundThen(&[PLUG], Refusal::Garbled)),
        ])?;
        self.session
            .report
            .end_calls("each search kept the numbers found before its refusal")?;
        Ok(())
    }

    fn refuse_orders(&mut self) -> anyhow::Result<()> {
        self.session.report.begin(
            "orders without power, to an absent tag, and with power that fails on the way",
        )?;
        let ordered = order(self.plug, 0x00, NEW);
        self.session.ask(&[
            (ordered, Refused(Refusal::NoPresence)),
            (Call::PowerUp, Done),
            (order(self.absent, 0x00, NEW), Refused(Refusal::Garbled)),
            (
                order(self.absent, 0x00, SUM_ZERO),
                Refused(Refusal::Garbled),
            ),
            (fuse(100, 0), Done),
            (ordered, Refused(Refusal::Garbled)),
            (Call::PowerUp, Done),
            (fuse(300, 0), Done),
            (ordered, Refused(Refusal::Garbled)),
        ])?;
        self.session.report.end_calls("no order was held")?;
        Ok(())
    }

    // The scratchpad still holds the plug's last row when it is copied once more.
    fn keep_busy(&mut self) -> anyhow::Result<()> {
        self.session.report.begin(
            "the plug takes an order, is made by slots to copy the same row again, and keeps the line busy until a dwell",
        )?;
        let ordered = order(self.plug, 0x08, NEW);
        self.session.ask(&[
            (Call::PowerUp, Done),
            (ordered, Held { programmed: true }),
            (Call::Reset, Present(true)),
        ])?;
        self.session.send(&COPY_AGAIN)?;
        self.session.ask(&[
            (Call::Reset, Refused(Refusal::LineBusy)),
            (Call::Slot(true), Refused(Refusal::LineBusy)),
            (read(self.sealed, 0x40), Refused(Refusal::LineBusy)),
            (list(8), FoundThen(&[], Refusal::LineBusy)),
            (ordered, Refused(Refusal::LineBusy)),
            (Call::Dwell, Done),
            (Call::Slot(true), Bit(false)),
            (Call::Slot(true), Bit(true)),
            (read(self.plug, 0x08), Row(NEW)),
            (list(2), Found(&[PLUG, SEALED])),
        ])?;
        self.session.report.end_calls(
            "the busy line refused everything but the dwell, and the row read is the row ordered",
        )?;
        Ok(())
    }

    fn read_what_is_left(&mut self) -> anyhow::Result<()> {
        self.session.report.begin(
            "row 0000h of the plug after the orders that were refused, and row 0040h, past its bytes",
        )?;
        self.session.ask(&[
            (read(self.plug, 0x00), Row(PLUG_ROW)),
            (order(self.plug, 0x40, ONES), Held { programmed: false }),
            (order(self.plug, 0x40, NEW), Refused(Refusal::NotHeld)),
        ])?;
        self.session.report.end_calls(
            "no refused order changed row 0000h, and row 0040h holds nothing but FFh",
        )?;
        Ok(())
    }
}
