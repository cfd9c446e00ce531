// Numbers of up to eight bytes, the lowest byte first: read from lent bytes, and put into them.
ghost use Rattle.std.specs.Prelude.{◌≡◌, min};
ghost use Rattle.byte_format.specs.Number.{bytes_of, number_at};
ghost use Rattle.lent_bytes.specs.Put.{put_at};

use crate::place::{left, rest};
use lists::few;

// The most bytes that a number has.
const WIDTH: usize = 8;

// The number in the w bytes from a place on, eight at most; bytes past the end count as none.
#[tactic(auto, using(crate::proofs::Digits::number_copied))]
pub fn number_at(s: &[u8], at: usize, w: usize) -> u64
    ensures { result ≡ number_at (min w 8) s.now at }
{
    let part = rest(s, at);
    let k = few(few(w, WIDTH), part.len());
    let mut bytes = [0; WIDTH];
    bytes[..k].copy_from_slice(&part[..k]);
    u64::from_le_bytes(bytes)
}

// Puts the w lowest bytes of a number, eight at most, from a place on: as many as there is room for, and no other byte changes.
#[tactic(auto, using(crate::proofs::Puts::put_part))]
pub fn put_number(number: u64, w: usize, out: &mut [u8], at: usize)
    ensures { out.new ≡ put_at out.old at (bytes_of (min w 8) number) }
{
    let start = few(at, out.len());
    let k = few(few(w, WIDTH), left(out.len(), at));
    out[start..start + k].copy_from_slice(&number.to_le_bytes()[..k]);
}
