#![tactic(auto)]

use anyhow::{Context, Result, bail};
use base::{Hex, RegistrationNumber};
use line::{AnyTag, Line, LineArray, TagKind};
use order::job::order;
use reading::job::read_row;
use rig::{Fuse, Rig};
use rom_search::job::search_rom;
use std::{array, env};

type Pair = LineArray<AnyTag, 2>;

// Joins two tags, each of a kind and a number that are given as arguments, and drives their line.
fn main(rt: HostRuntime) -> Result<()> {
    let mut words = env::args(&rt)?.skip(1);
    let tags = array::try_from_fn(|_| given_tag(words.next(), words.next()))?;
    let line = drive(&rt, Rig::new(LineArray::new(tags)))?;
    let power = if line.presence() { "a" } else { "no" };
    println!(&rt; "The line is given back; {power} tag on it has power.")?;
    Ok(())
}

// A tag of FFh, by its kind, `sealed` or `plug`, and the eight bytes of its number in hexadecimal.
fn given_tag(kind: Option<String>, number: Option<String>) -> Result<AnyTag> {
    let kind = match kind.context("a kind is missing")?.as_str() {
        "sealed" => TagKind::Sealed,
        "plug" => TagKind::Plug,
        other => bail!("there is no kind {other}"),
    };
    let word = u64::from_str_radix(number.context("a number is missing")?.as_str(), 16)?;
    let number = RegistrationNumber::try_from(word.swap_bytes())?;
    let image = [0xFF; 136];
    let image = image
        .get(..kind.image_length())
        .context("the image is too short")?;
    Ok(AnyTag::new(kind, number, image)?)
}

// Searches the line; writes to each tag, and then once more with power failing at the dwell.
fn drive(rt: &HostRuntime, mut rig: Rig<Pair>) -> Result<Pair> {
    rig.power_up();
    let mut places = [0; 8];
    let found = match search_rom(&mut rig, &mut places) {
        Ok((found, steps)) => {
            println!(rt; "Search: {found} numbers found, in {steps} steps.")?;
            found
        }
        Err(fault) => {
            println!(rt; "Search: refused with {fault}.")?;
            fault.found()
        }
    };
    for word in places.iter().take(found as usize) {
        let number = RegistrationNumber::try_from(*word)?;
        write_row(rt, &mut rig, number)?;
        rig.set_fuse(Fuse {
            count: 467,
            mask: 0,
        });
        write_row(rt, &mut rig, number)?;
        let (power, fuse) = (rig.line().presence(), rig.fuse().is_some());
        println!(rt; "Then the line has power: {power}, and a fuse is set: {fuse}.")?;
        rig.power_up();
    }
    Ok(rig.into_line())
}

// Orders eight bytes to row 0020h, and reads the row.
fn write_row(rt: &HostRuntime, rig: &mut Rig<Pair>, number: RegistrationNumber) -> Result<()> {
    match order(rig, number, 0x20, &[1, 2, 3, 4, 5, 6, 7, 8]) {
        Ok((true, steps)) => println!(rt; "{number}: held and programmed, in {steps} steps.")?,
        Ok((false, steps)) => println!(rt; "{number}: held, not programmed, in {steps} steps.")?,
        Err(fault) => println!(rt; "{number}: order refused with {fault}.")?,
    }
    let mut row = [0; 8];
    match read_row(rig, number, 0x20, &mut row) {
        Ok(steps) => println!(rt;
            "{number}: row 0020h reads {}, in {steps} steps.",
            Hex(&row)
        )?,
        Err(fault) => println!(rt; "{number}: reading refused with {fault}.")?,
    }
    Ok(())
}
