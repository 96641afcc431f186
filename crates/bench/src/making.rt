use crate::report::Report;
use anyhow::ensure;
use base::{Hex, RegistrationNumber};
use kinds::SealedTag;
use line::tag_making::make_tag;
use samples::numbers::{GEARBOX, SEALED, WRONG_GEARBOX, WRONG_SEALED, gearbox_number};
use samples::tags::Tag;

// Numbers and a sealed tag made, and refused.
pub fn run(mut report: Report<'_>) -> anyhow::Result<Report<'_>> {
    report.begin(
        "numbers and a sealed tag are made; a wrong check byte and a short image are refused",
    )?;
    make_number(&mut report, WRONG_GEARBOX, false)?;
    make_number(&mut report, GEARBOX, true)?;
    make_number(&mut report, WRONG_SEALED, false)?;
    make_number(&mut report, SEALED, true)?;
    make_sealed_tag(&mut report, &[0xFF; 135], false)?;
    make_sealed_tag(&mut report, &[0xFF; 136], true)?;
    report.end_makings()?;
    Ok(report)
}

fn count(report: &mut Report<'_>, made: bool, right: bool) -> anyhow::Result<()> {
    ensure!(
        made == right,
        "made what is wrong, or refused what is right"
    );
    report.count_making();
    if !made {
        report.count_refusal();
    }
    Ok(())
}

fn make_number(report: &mut Report<'_>, word: u64, right: bool) -> anyhow::Result<()> {
    let bytes = word.to_le_bytes();
    let made = RegistrationNumber::try_from(word);
    match made {
        Ok(_) => println!(report.rt; "Make number {}: made.", Hex(&bytes))?,
        Err(fault) => println!(report.rt; "Make number {}: refused with {fault}.", Hex(&bytes))?,
    }
    count(report, made.is_ok(), right)
}

fn make_sealed_tag(report: &mut Report<'_>, image: &[u8], right: bool) -> anyhow::Result<()> {
    let length = image.len();
    let mut place: Option<Tag<SealedTag>> = None;
    let made = make_tag(&mut place, gearbox_number(), image);
    match made {
        Ok(()) => println!(report.rt; "Make a sealed tag from an image of {length} bytes: made.")?,
        Err(fault) => println!(report.rt;
            "Make a sealed tag from an image of {length} bytes: refused with {fault}."
        )?,
    }
    count(report, made.is_ok(), right)
}
