// One whole number that a program is given as an argument, such as `-12`: a numeral as in a sheet, of any length.
ghost use Rattle.std.specs.Prelude.{◌≡◌, ◌+◌, ◌-◌, ◌*◌, ◌%◌, ◌≤◌, drop};
ghost use Rattle.sheet.specs.Sheet.{value};
ghost use Rattle.argument.specs.Whole.{sole, word_limit};
ghost use Rattle.argument.specs.Inner.{whole_of};

use items::item_at;

// No number that a program asks for has more than 32 bits: one that is this far from 0, or further, only has to be told from the others.
pub const WORD_LIMIT: u64 = 0x1_0000_0000;

// One whole number: whether it is below 0, how far it is from 0, at most 2^32, and the remainder of that by 2^32.
#[derive(Clone, Copy)]
pub struct Whole {
    pub negative: bool,
    pub size: u64,
    pub rest: u32,
}

// Reads the argument, if it is a numeral: any bytes have one answer.
pub fn read_whole(s: &[u8]) -> Option<Whole>
    ensures { result ≡ whole_of (sole s.now) }
{
    let item = item_at(s, 0, WORD_LIMIT - 1)?;
    // a lone minus is an item and no number
    if !words::present(item.word) {
        return None;
    }
    if item.next != s.len() {
        return None;
    }
    let below = words::below(item.word);
    // the digits of a number below 0 stand behind its minus
    if 0 < below {
        return Some(Whole {
            negative: true,
            size: below,
            rest: remainder(s, 1),
        });
    }
    Some(Whole {
        negative: false,
        size: words::above(item.word),
        rest: remainder(s, 0),
    })
}

// The value of the digits from `from` on, by its remainder: a numeral may have more digits than any word holds.
fn remainder(s: &[u8], from: usize) -> u32
    ensures { result ≡ value 0 (drop from s.now) % word_limit }
{
    let mut rest: u32 = 0;
    for at in from..s.len() {
        let b = s[at];
        if !b.is_ascii_digit() {
            break;
        }
        rest = with_digit(rest, b);
    }
    rest
}

// One digit more: those before it count by their remainder alone.
fn with_digit(rest: u32, b: u8) -> u32
    requires { (48 ≤ b) × (b ≤ 57) }
    ensures { result ≡ (rest * 10 + (b - 48)) % word_limit }
{
    let more = u64::from(rest) * 10 + u64::from(b - b'0');
    (more % WORD_LIMIT) as u32
}
