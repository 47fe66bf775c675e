// An entry of a table in one word: 0 is absent, BIAS + z is the number z. The order of words is the order of entries, and nothing else of this
// is known outside. A line, w or a timing is six such words with its count of triggers.
#![tactic(auto)]

ghost use Rattle.std.specs.Prelude.{◌≡◌, ◌≤◌, ◌<◌, pos};
ghost use Rattle.maxplus.specs.Whole.{up, dn, neg};
ghost use Rattle.maxplus.specs.Entry.{num, ◌⊗◌, ◌⊕◌, inv, present?, val};
ghost use Rattle.cue.specs.Written.{signed};
ghost use Rattle.cue.specs.Standing.{of_signed};
ghost use Rattle.words.specs.Words.{word, entry, far, signed_far, Close, Near};

// The word of the number 0.
const BIAS: u64 = 0x100_0000_0000;

// The words that a line takes in a lent space, without a cap and with one.
pub const LINE_SIZE: usize = 7;

pub const CAPPED_SIZE: usize = 8;

// The signed word of absent in a lent space: the least number of 32 bits.
const ABSENT: i32 = i32::MIN;

// A line, w or a timing: its count of triggers and its six components as words of entries, the unused ones absent.
#[derive(Clone, Copy)]
pub struct LineWords {
    pub count: usize,
    pub at: [u64; 6],
}

// The word of m.
pub fn positive(m: u64) -> u64
    requires { m ≤ far }
    ensures { result ≡ word (num (pos m)) }
{
    BIAS + m
}

// The word of -m.
pub fn negative(m: u64) -> u64
    requires { m ≤ far }
    ensures { result ≡ word (num (neg (pos m))) }
{
    BIAS - m
}

// The word of x. Its magnitude is taken by its sign: a word is made of an unsigned number.
pub fn of_number(x: i64) -> u64
    requires { (up x ≤ far) × (dn x ≤ far) }
    ensures { result ≡ word (num x) }
{
    if x < 0 {
        return negative(x.unsigned_abs());
    }
    positive(x.unsigned_abs())
}

// There is a number.
pub fn present(a: u64) -> bool
    ensures { result ≡ present? (entry a) }
{
    a != 0
}

// How far the number is above 0: 0 where it is below, and where there is none.
pub fn above(a: u64) -> u64
    ensures { result ≡ up (val (entry a)) }
{
    a.saturating_sub(BIAS)
}

// How far the number is below 0: 0 where it is above, and where there is none.
pub fn below(a: u64) -> u64
    ensures { result ≡ dn (val (entry a)) }
{
    if a == 0 { 0 } else { BIAS.saturating_sub(a) }
}

// The larger of two entries.
pub fn larger(a: u64, b: u64) -> u64
    ensures { entry result ≡ entry a ⊕ entry b }
{
    a.max(b)
}

// The sum of two entries.
pub fn plus(a: u64, b: u64) -> u64
    requires { Near a × Near b }
    ensures { entry result ≡ entry a ⊗ entry b }
{
    if a == 0 || b == 0 {
        return 0;
    }
    a + b - BIAS
}

// The difference of two entries: absent where one of them is.
pub fn minus(a: u64, b: u64) -> u64
    requires { Near a × Near b }
    ensures { entry result ≡ entry a ⊗ inv (entry b) }
{
    if a == 0 || b == 0 {
        return 0;
    }
    BIAS + a - b
}

// The number that a word stands for. Both words are below 2^63, so `as` loses nothing, where TryFrom would add an error.
pub fn number(a: u64) -> i64
    requires { (0 < a) × Near a }
    ensures { entry a ≡ num result }
{
    (a as i64) - (BIAS as i64)
}

// The signed word of an entry in a lent space.
pub fn signed(a: u64) -> i32
    requires { Close signed_far a }
    ensures { result ≡ signed (entry a) }
{
    if a == 0 {
        return ABSENT;
    }
    number(a) as i32
}

// The entry of a signed word in a lent space.
pub fn of_signed(a: i32) -> u64
    ensures is { entry result ≡ of_signed a }
    ensures close { Close signed_far result }
{
    if a == ABSENT {
        return 0;
    }
    of_number(i64::from(a))
}
