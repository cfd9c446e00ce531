// The numbers in the fields of a record in lent bytes, the lowest byte first. A field begins `k` bytes after the place of its record, and
// bytes past the end count as none: so nothing is asked, and a reader that has seen that the record is whole pays for no second test.
#![tactic(auto)]

ghost use Rattle.std.specs.Prelude.{◌≡◌, ◌+◌, ◌*◌, get_or};
ghost use Rattle.byte_format.specs.Number.{number_at};

use lent_bytes::place::room;

// The byte `k` after a place.
fn byte_at(s: &[u8], at: usize, k: usize) -> u8
    ensures { result ≡ get_or s.now (at + k) 0 }
{
    if k < room(s, at) { s[at + k] } else { 0 }
}

// The number in one byte, `k` after a place.
#[tactic(auto, using(byte_format::proofs::Numbers::number_one))]
pub fn u8_at(s: &[u8], at: usize, k: u8) -> u8
    ensures { result ≡ number_at 1 s.now (at + k) }
{
    byte_at(s, at, usize::from(k))
}

// The number in two bytes.
#[tactic(auto, using(byte_format::proofs::Numbers::number_two))]
pub fn u16_at(s: &[u8], at: usize, k: u8) -> u16
    ensures { result ≡ number_at 2 s.now (at + k) }
{
    let i = usize::from(k);
    u16::from_le_bytes([byte_at(s, at, i), byte_at(s, at, i + 1)])
}

// The number in four bytes.
#[tactic(auto, using(byte_format::proofs::Numbers::number_four))]
pub fn u32_at(s: &[u8], at: usize, k: u8) -> u32
    ensures { result ≡ number_at 4 s.now (at + k) }
{
    let i = usize::from(k);
    u32::from_le_bytes([
        byte_at(s, at, i),
        byte_at(s, at, i + 1),
        byte_at(s, at, i + 2),
        byte_at(s, at, i + 3),
    ])
}
