use base::crc::{crc8, crc16};
use std::io::{BufRead, BufReader};

// The value of a hexadecimal digit. Letters are upper case.
pub fn digit(letter: u8) -> Option<u8> {
    match letter {
        b'0'..=b'9' => Some(letter - b'0'),
        b'A'..=b'F' => Some(letter - b'A' + 10),
        _ => None,
    }
}

// The bytes of a line: two digits each, or a dash for none.
fn bytes_of(line: &str, into: &mut Vec<u8>) -> anyhow::Result<()> {
    into.clear();
    let mut high: Option<u8> = None;
    for letter in line.bytes() {
        let Some(value) = digit(letter) else {
            continue;
        };
        match high {
            None => high = Some(value),
            Some(first) => {
                into.push(first.wrapping_mul(16).wrapping_add(value))?;
                high = None;
            }
        }
    }
    Ok(())
}

pub fn run(rt: &HostRuntime) -> anyhow::Result<()> {
    let mut bytes = Vec::new(rt.alloc());
    for line in BufReader::new(rt.alloc(), rt.stdin())?.lines(rt.alloc()) {
        let text = line?;
        bytes_of(text.as_str(), &mut bytes)?;
        let short = crc8(bytes.as_slice());
        let long = crc16(bytes.as_slice());
        println!(rt; "{text} {short:02X} {long:04X}")?;
    }
    Ok(())
}
