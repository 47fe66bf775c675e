// One item of a line: a numeral, or a lone minus for absent.
#![tactic(auto)]

ghost use Rattle.std.specs.Prelude.{◌≡◌, ◌≤◌, ◌<◌, length};
ghost use Rattle.sheet.specs.Sheet.{leading, item, signed};
ghost use Rattle.words.specs.Words.{far};
ghost use Rattle.items.specs.Inner.{NumeralAt, ItemIs};

// An entry's word and the place behind it.
#[derive(Clone, Copy)]
pub struct Item {
    pub word: u64,
    pub next: usize,
}

#[derive(Clone, Copy)]
struct Numeral {
    value: u64,
    next: usize,
}

// The item at `at`, if one stands there. A number beyond -most or most is read as one past it, so that numerals of any length are read without
// wrapping.
pub fn item_at(s: &[u8], at: usize, most: u64) -> Option<Item>
    requires { (at ≤ length s.now) × (9 ≤ most) × (most < far) }
    ensures { ItemIs most item s.now at result }
{
    if s.len() <= at {
        return None;
    }
    let b = s[at];
    if b == b'0' {
        return Some(Item {
            word: words::positive(0),
            next: at + 1,
        });
    }
    if b == b'-' {
        return signed_at(s, at + 1, most);
    }
    if is_leading(b) {
        let m = numeral_from(s, at + 1, u64::from(b - b'0'), most);
        return Some(Item {
            word: words::positive(m.value),
            next: m.next,
        });
    }
    None
}

// What stands behind a minus: a numeral, or nothing of this item.
fn signed_at(s: &[u8], at: usize, most: u64) -> Option<Item>
    requires { (at ≤ length s.now) × (9 ≤ most) × (most < far) }
    ensures { ItemIs most signed s.now at result }
{
    if s.len() <= at {
        return Some(Item { word: 0, next: at });
    }
    let b = s[at];
    if is_leading(b) {
        let m = numeral_from(s, at + 1, u64::from(b - b'0'), most);
        return Some(Item {
            word: words::negative(m.value),
            next: m.next,
        });
    }
    Some(Item { word: 0, next: at })
}

// Reads on behind a numeral's first digit.
fn numeral_from(s: &[u8], from: usize, first: u64, most: u64) -> Numeral
    requires { (from ≤ length s.now) × (first ≤ 9) × (9 ≤ most) × (most < far) }
    ensures { NumeralAt most s.now from first result }
{
    let mut value = first;
    for at in from..s.len() {
        let b = s[at];
        if !b.is_ascii_digit() {
            return Numeral { value, next: at };
        }
        value = (value * 10 + u64::from(b - b'0')).min(most + 1);
    }
    Numeral {
        value,
        next: s.len(),
    }
}

fn is_leading(b: u8) -> bool
    ensures { result ≡ leading b }
{
    matches!(b, b'1'..=b'9')
}
