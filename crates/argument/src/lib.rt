// The times that a program is given as an argument, such as `0,1`: numerals as in a sheet, split by one comma.
#![tactic(auto)]

ghost use Rattle.std.specs.Prelude.{◌≡◌, suc, length};
ghost use Rattle.argument.specs.Times.{numbers};
ghost use Rattle.argument.specs.Inner.{times_of, put_at};

use items::item_at;
use timing::Timing;

pub mod call;
pub mod whole;

// Components lie from -FAR_LIMIT to FAR_LIMIT; any number beyond is read as one past the end, which every operation on a timing refuses too.
const FAR_LIMIT: u64 = 1_000_000_000;

// Reads the argument, if it is a list of numerals: how many there are, and the first six. Any bytes have one answer.
pub fn times(s: &[u8]) -> Option<Timing>
    ensures { result ≡ times_of (numbers (suc (length s.now)) s.now) }
{
    let mut at = [0i64; 6];
    let mut count: usize = 0;
    let mut place: usize = 0;
    loop {
        let item = item_at(s, place, FAR_LIMIT)?;
        // a lone minus is an item and no number
        if !words::present(item.word) {
            return None;
        }
        put(&mut at, count, words::number(item.word));
        count += 1;
        if item.next == s.len() {
            return Some(Timing { count, at });
        }
        if s[item.next] != b',' {
            return None;
        }
        place = item.next + 1;
    }
}

// The component at `count`, where there is room: a timing of more than six is refused for its count alone.
fn put(at: &mut [i64; 6], count: usize, x: i64)
    ensures { at.new ≡ put_at at.old count x }
{
    if count < 6 {
        at[count] = x;
    }
}
