use crate::calls::{fuse, order, read};
use crate::expected::Expected::{Done, Held, Present, Refused, Row};
use crate::report::Report;
use crate::session::Session;
use base::{Refusal, RegistrationNumber};
use history::Call;
use kinds::SealedTag;
use kinds::row::ROW;
use samples::numbers::sealed_number;
use samples::tags::{Tag, tag_of};
use std::array;

const OLD: [u8; ROW] = [0xF0; ROW];

const NEW: [u8; ROW] = [1, 2, 3, 4, 5, 6, 7, 8];

const HALF_NEW: [u8; ROW] = [1, 2, 3, 4, 0xF0, 0xF0, 0xF0, 0xF0];

// A mask with no two bytes alike.
const MASK: u64 = 0x0123_4567_89AB_CDEF;

// What differs from `OLD` in every bit, so that a row which took a part of it shows the mask.
const TURNED: [u8; ROW] = [0x0F; ROW];

// To the scratchpad: no number, 0Fh, row 0048h, and `TURNED`; and its copy.
const WRITE: [u8; 12] = [
    0xCC, 0x0F, 0x48, 0x00, 0x0F, 0x0F, 0x0F, 0x0F, 0x0F, 0x0F, 0x0F, 0x0F,
];

const COPY: [u8; 5] = [0xCC, 0x55, 0x48, 0x00, 0x07];

// What `OLD` becomes where `TURNED` is programmed through the mask.
fn masked() -> [u8; ROW] {
    let mask = MASK.to_le_bytes();
    array::from_fn(|i| (TURNED[i] & mask[i]) | (OLD[i] & !mask[i]))
}

// A sealed tag alone on its line, and its number. Its bytes are F0h, with page 0 write-protected, page 1 in EPROM
// mode, pages 2 and 3 free.
#[derive(Drop)]
struct EdgeOrders<'a> {
    session: Session<'a, Tag<SealedTag>>,
    number: RegistrationNumber,
}

// The tag's bytes, with one at 84h.
fn image(lock: u8) -> [u8; 136] {
    let mut image = [0xF0; 136];
    image[0x80] = 0x55;
    image[0x81] = 0xAA;
    image[0x82] = 0x00;
    image[0x83] = 0x00;
    image[0x84] = lock;
    image
}

pub fn run(report: Report<'_>) -> anyhow::Result<Report<'_>> {
    let number = sealed_number();
    let tag = tag_of::<SealedTag>(number, &image(0x00))?;
    let mut free = EdgeOrders {
        session: Session::new(report, tag),
        number,
    };
    free.power_fails()?;
    free.protected_rows()?;
    let tag = tag_of::<SealedTag>(number, &image(0x55))?;
    let mut locked = EdgeOrders {
        session: Session::new(free.session.report, tag),
        number,
    };
    locked.copy_forbidden()?;
    let tag = tag_of::<SealedTag>(number, &image(0x00))?;
    let mut masked = EdgeOrders {
        session: Session::new(locked.session.report, tag),
        number,
    };
    masked.order_under_mask()?;
    masked.slots_under_mask()?;
    Ok(masked.session.report)
}

impl EdgeOrders<'_> {
    // An order to row 0040h whose power fails, and what the row holds then.
    fn lose_power(
        &mut self,
        count: u32,
        mask: u64,
        new: [u8; ROW],
        left: [u8; ROW],
    ) -> anyhow::Result<()> {
        let number = self.number;
        self.session.ask(&[
            (fuse(count, mask), Done),
            (order(number, 0x40, new), Refused(Refusal::NoPresence)),
            (Call::PowerUp, Done),
            (read(number, 0x40), Row(left)),
        ])
    }

    fn power_fails(&mut self) -> anyhow::Result<()> {
        self.session.report.begin(
            "power fails while row 0040h is ordered: at the dwell, with two masks, and at the closing reset",
        )?;
        self.session.ask(&[(Call::PowerUp, Done)])?;
        self.lose_power(467, 0, NEW, OLD)?;
        self.lose_power(467, 0xFFFF_FFFF, NEW, HALF_NEW)?;
        self.lose_power(637, 0, NEW, NEW)?;
        self.session
            .report
            .end_calls("the row was left old, then half new, then new")?;
        Ok(())
    }

    fn protected_rows(&mut self) -> anyhow::Result<()> {
        self.session.report.begin(
            "orders to rows that are not free: page 0 is write-protected, in page 1 bits only fall, row 0088h is not programmable",
        )?;
        let number = self.number;
        self.session.ask(&[
            (order(number, 0x20, TURNED), Refused(Refusal::DataDiffer)),
            (order(number, 0x20, [0x70; ROW]), Held { programmed: true }),
            (order(number, 0x00, OLD), Held { programmed: true }),
            (order(number, 0x00, NEW), Refused(Refusal::DataDiffer)),
            (order(number, 0x88, [0xFF; ROW]), Held { programmed: false }),
            (order(number, 0x88, [0x00; ROW]), Refused(Refusal::NotHeld)),
            (order(number, 0x03, NEW), Refused(Refusal::BadRow)),
        ])?;
        self.session.report.end_calls(
            "an order was held exactly where the row can hold its bytes",
        )?;
        Ok(())
    }

    fn copy_forbidden(&mut self) -> anyhow::Result<()> {
        self.session.report.begin(
            "the order of a protected row as it is, where byte 84h is 55h and forbids the copy",
        )?;
        let number = self.number;
        self.session.ask(&[
            (Call::PowerUp, Done),
            (order(number, 0x00, OLD), Held { programmed: false }),
        ])?;
        self.session
            .report
            .end_calls("the order was held, though nothing was programmed")?;
        Ok(())
    }

    fn order_under_mask(&mut self) -> anyhow::Result<()> {
        self.session.report.begin(
            "power fails at the dwell of an order, with a mask of eight different bytes",
        )?;
        self.session.ask(&[(Call::PowerUp, Done)])?;
        self.lose_power(467, MASK, TURNED, masked())?;
        self.session
            .report
            .end_calls("the row is new exactly where the mask has ones")?;
        Ok(())
    }

    fn slots_under_mask(&mut self) -> anyhow::Result<()> {
        self.session.report.begin(
            "slots write the scratchpad for row 0048h and copy it; a cut with the same mask stops the programming",
        )?;
        self.session.ask(&[(Call::Reset, Present(true))])?;
        self.session.send(&WRITE)?;
        self.session.ask(&[(Call::Reset, Present(true))])?;
        self.session.send(&COPY)?;
        let number = self.number;
        self.session.ask(&[
            (Call::Reset, Refused(Refusal::LineBusy)),
            (Call::Cut(MASK), Done),
            (Call::PowerUp, Done),
            (read(number, 0x48), Row(masked())),
        ])?;
        self.session
            .report
            .end_calls("the row is new exactly where the mask has ones")?;
        Ok(())
    }
}
