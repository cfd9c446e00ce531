// Taken positions as the bits of a word: bit `p` says whether position `p` is taken.
ghost use Rattle.std.specs.Prelude.{◌≡◌, cond, min};
ghost use Rattle.lists.specs.Lists.{first};
ghost use Rattle.protocol.specs.Event.{has};
ghost use Rattle.mailbox_free.specs.Bits.{last_bit, bit_word};
ghost use Rattle.mailbox_free.specs.Pattern.{AllLowest};

use crate::table::PATTERNS;
use mailbox_base::numbers::POSITIONS;

// The last bit. Whatever is larger shares it, and it is no position's.
const LAST: u8 = 15;

// The last position.
const TENTH: u8 = POSITIONS as u8;

// The bit of `p`.
fn bit_of(p: u8) -> u8
    ensures { result ≡ min p last_bit }
{
    p.min(LAST)
}

// The word with the bit of `p`, or with none.
pub fn taken_bit(b: bool, p: u8) -> u16
    ensures { result ≡ cond b (bit_word p) 0 }
{
    (b as u16) << bit_of(p)
}

// The lowest position that is not taken; the tenth where the nine before it are, whether it is or not. Bit `p` of the word is bit
// `p` - 1 of the pattern. Of an array that is not the table nothing is said.
pub fn lowest_outside(lowest: &[u8; PATTERNS], taken: u16) -> u8
    ensures { AllLowest lowest.now → result ≡ first (has taken) 9 1 }
{
    let p = lowest[taken as usize / 2 % PATTERNS];
    if p == 0 { TENTH } else { p }
}
