ghost use Rattle.std.specs.Prelude.{◌≡◌, List, [], ◌∷◌, ◌++◌};
ghost use Rattle.base.specs.Bits.{bits_of, bits_all};
ghost use Rattle.base.specs.Crc.{poly8, poly16, shift, crc_bits, crc8, crc16, low_high, inverted};

// X^8 + X^5 + X^4 + 1 without its highest power, the lowest power in the highest bit.
const POLY8: u16 = 0x8C;

// X^16 + X^15 + X^2 + 1, written likewise.
const POLY16: u16 = 0xA001;

// One bit more in the register of a sum.
fn add_bit(poly: u16, sum: u16, bit: bool) -> u16
    ensures { result ≡ shift poly sum bit }
{
    if (sum % 2 == 1) != bit {
        (sum / 2) ^ poly
    } else {
        sum / 2
    }
}

// One byte more, its lowest bit first.
fn add_byte(poly: u16, sum: u16, byte: u8) -> u16
    ensures { result ≡ crc_bits poly sum (bits_of 8 byte) }
{
    let mut state = sum;
    let mut rest = byte;
    for _ in 0..8u8 {
        state = add_bit(poly, state, rest % 2 == 1);
        rest /= 2;
    }
    state
}

// More bytes, one after another.
fn add_bytes(poly: u16, sum: u16, bytes: &[u8]) -> u16
    ensures { result ≡ crc_bits poly sum (bits_all bytes.now) }
{
    let mut state = sum;
    for byte in bytes {
        state = add_byte(poly, state, *byte);
    }
    state
}

// The CRC-8 of some bytes; with it behind them the sum is 0.
pub fn crc8(bytes: &[u8]) -> u8
    ensures value { result ≡ crc8 bytes.now }
    ensures closes { crc8 (bytes.now ++ (result ∷ [])) ≡ 0 }
{
    add_bytes(POLY8, 0, bytes) as u8
}

// The CRC-16 of more bytes after those whose sum is given.
pub fn crc16_after(begun: u16, bytes: &[u8]) -> u16
    ensures { result ≡ crc16 begun bytes.now }
{
    add_bytes(POLY16, begun, bytes)
}

// The CRC-16 of some bytes; with it behind them, low byte first, the sum is 0.
pub fn crc16(bytes: &[u8]) -> u16
    ensures value { result ≡ crc16 0 bytes.now }
    ensures closes { crc16 0 (bytes.now ++ low_high result) ≡ 0 }
{
    crc16_after(0, bytes)
}

// The CRC-16 with one byte more after those whose sum is given.
pub fn crc16_more(sum: u16, byte: u8) -> u16
    ensures { result ≡ crc16 sum (byte ∷ []) }
{
    add_byte(POLY16, sum, byte)
}

// The inverted sum as it is sent, low byte first.
pub fn inverted(sum: u16) -> [u8; 2]
    ensures { result ≡ inverted sum }
{
    (!sum).to_le_bytes()
}
