// Bytes, numbers and fields put one behind another into lent bytes; what stands before them is kept.
#![tactic(auto)]

ghost use Rattle.std.specs.Prelude.{◌≡◌, List, ℕ, [], ◌∷◌, ◌+◌, ◌<◌, ◌≤◌, length};
ghost use Rattle.writing.specs.Numerals.{natural, numeral, item};
ghost use Rattle.writing.specs.Texts.{field};
ghost use Rattle.cue.specs.Standing.{of_signed};
ghost use Rattle.writing.specs.Writing.{Puts, Put, comma};

// The word of an absent component.
const ABSENT: i32 = -0x8000_0000;

// Lent bytes, and the place in them where the next text is put.
#[derive(Drop)]
pub struct Writer<'a> {
    pub out: &'a mut [u8],
    pub at: usize,
}

impl<'a> Writer<'a> {
    // At the front.
    pub fn new(out: &'a mut [u8]) -> Writer<'a>
        ensures same { result.out.ghost_name ≡ out.entry.ghost_name }
        ensures kept { result.out.now ≡ out.old }
        ensures front { result.at ≡ 0 }
    {
        Writer { out, at: 0 }
    }

    pub fn put_byte(&mut self, b: u8)
        requires { self.old.at < length self.old.out.now }
        ensures { Put self.old self.new (b ∷ []) }
    {
        self.out[self.at] = b;
        self.at += 1;
    }

    pub fn put_bytes(&mut self, key: &[u8])
        requires { self.old.at + length key.now ≤ length self.old.out.now }
        ensures { Put self.old self.new key.now }
    {
        self.at = put_bytes(self.out, self.at, key);
    }

    // What stands before the j-th item, counted from 0: a comma, unless it is the first.
    pub fn put_comma(&mut self, j: usize)
        requires { self.old.at < length self.old.out.now }
        ensures puts { Put self.old self.new (comma j) }
        ensures short { self.new.at ≤ self.old.at + 1 }
    {
        if j != 0 {
            self.put_byte(b',');
        }
    }

    // The digits of v, at most 20 below 2^64.
    pub fn put_natural(&mut self, v: u64)
        requires { self.old.at + 20 ≤ length self.old.out.now }
        ensures { Put self.old self.new (natural v) }
    {
        self.at = put_natural(self.out, self.at, v);
    }

    // A number: a minus and at most 19 digits, for which put_natural asks 20.
    pub fn put_number(&mut self, v: i64)
        requires { self.old.at + 24 ≤ length self.old.out.now }
        ensures puts { Put self.old self.new (numeral v) }
        ensures short { self.new.at ≤ self.old.at + 20 }
    {
        if v < 0 {
            self.put_byte(b'-');
            self.put_natural(v.unsigned_abs());
            return;
        }
        self.put_natural(v.unsigned_abs());
    }

    // A component's word, a number or a lone minus for absent: at most 11 bytes.
    pub fn put_item(&mut self, w: i32)
        requires { self.old.at + 24 ≤ length self.old.out.now }
        ensures puts { Put self.old self.new (item (of_signed w)) }
        ensures short { self.new.at ≤ self.old.at + 11 }
    {
        if w == ABSENT {
            self.put_byte(b'-');
            return;
        }
        self.put_number(i64::from(w));
    }

    // The key, a number, LF: at most 21 bytes behind the key.
    pub fn put_field<V: Number>(&mut self, key: &[u8], v: V)
        requires { self.old.at + length key.now + 24 ≤ length self.old.out.now }
        ensures puts { Put self.old self.new (field key.now (V.text v)) }
        ensures short { self.new.at ≤ self.old.at + length key.now + 21 }
    {
        self.put_bytes(key);
        v.put(self);
        self.put_byte(b'\n');
    }
}

// A number that can be put as text, of at most 20 bytes, for which put asks 24.
pub trait Number: Copy {
    ghost text: { Self → List ℕ };

    fn put(self, writer: &mut Writer<'_>)
        requires { writer.old.at + 24 ≤ length writer.old.out.now }
        ensures puts { Put writer.old writer.new (text self) }
        ensures short { writer.new.at ≤ writer.old.at + 20 };
}

impl Number for u64 {
    ghost text = { natural };

    fn put(self, writer: &mut Writer<'_>) {
        writer.put_natural(self);
    }
}

impl Number for i64 {
    ghost text = { numeral };

    fn put(self, writer: &mut Writer<'_>) {
        writer.put_number(self);
    }
}

// A byte put at a place by itself; the place behind it.
pub fn put_byte(out: &mut [u8], at: usize, b: u8) -> usize
    requires { at < length out.old }
    ensures { Puts out.old out.new at result (b ∷ []) }
{
    out[at] = b;
    at + 1
}

// Digits put at a place by themselves: those of v's tenth part, then the last one; the place behind them. The place goes from call to call by
// value: with a writer's, which is stored and read again for each digit, a sheet takes 1.4 times as long to make.
pub fn put_natural(out: &mut [u8], at: usize, v: u64) -> usize
    requires { at + 20 ≤ length out.old }
    ensures { Puts out.old out.new at result (natural v) }
{
    if v < 10 {
        return put_byte(out, at, b'0' + v as u8);
    }
    let end = put_natural(out, at, v / 10);
    put_byte(out, end, b'0' + (v % 10) as u8)
}

// A text put at a place by itself; the place behind it. Byte by byte: `copy_from_slice` would have the library need `memmove`.
pub fn put_bytes(out: &mut [u8], at: usize, text: &[u8]) -> usize
    requires { at + length text.now ≤ length out.old }
    ensures { Puts out.old out.new at result text.now }
{
    for k in 0..text.len() {
        out[at + k] = text[k];
    }
    at + text.len()
}
