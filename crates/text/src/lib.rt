// The texts that the programs write, put into lent bytes: of a plan, of a kept table, of a timing, of a refusal. The function of each
// text returns the place behind it. A number has at most 20 bytes, and the room asked for is a round number above the longest text.
#![tactic(auto)]

ghost use Rattle.std.specs.Prelude.{◌≡◌, List, [], ◌∷◌, ◌+◌, ◌*◌, ◌≤◌, ℤ, pos, length, take, get_or};
ghost use Rattle.std.proofs.Math.Option.{Option};
ghost use Rattle.maxplus.specs.Finite.{each};
ghost use Rattle.maxplus.specs.Line.{Line};
ghost use Rattle.trigger_sets.specs.Sets.{bit};
ghost use Rattle.writing.specs.Texts.{plan_text, kept_text, latest_text, refusal_text, full_text};
ghost use Rattle.cue.specs.Standing.{StandsWith};
ghost use Rattle.writing.specs.Writing.{Writes};
ghost use Rattle.cue.specs.Written.{line_size, width};

use crate::lines::{put_lines, put_panels, put_times};
use writing::Writer;

mod lines;

// The places behind a program's two texts: on standard output, and on standard error, where a refusal gets a sentence.
#[derive(Clone, Copy)]
pub struct Ends {
    pub text: usize,
    pub complaint: usize,
}

impl Ends {
    // Writes the two texts, the first on standard output, the second, if there is one, on standard error.
    pub fn write(self, out: &[u8], errors: &[u8])
        requires { (self.text ≤ length out.now) × (self.complaint ≤ length errors.now) }
    {
        io::write_all(1, &out[..self.text]);
        if self.complaint != 0 {
            io::write_all(2, &errors[..self.complaint]);
        }
    }
}

// The text of a plan whose lines stand in `words`, `wide` words each, with its spare triggers as bits. The four fields take at most 117 bytes, a
// line 78, a cap 16. The numbers come one by one, as the fields stand, so that the texts need not know the crate of the plan.
pub fn plan_text(
    out: &mut [u8],
    deviation: i64,
    steps: u64,
    selections: u64,
    n: usize,
    spares: u8,
    words: &[i32],
    wide: usize,
    count: usize,
) -> usize
    requires { (100 * count + 200 ≤ length out.old) × (n ≤ 6) × (line_size ≤ wide) × (wide * count ≤ length words.now) }
    ensures within { result ≤ length out.new }
    ensures text { (caps : Option (Line n → ℤ)) (L : List (Line n)) → wide ≡ width caps →
        StandsWith n count words.now caps L → take result out.new ≡ plan_text n (bit spares) deviation steps selections caps L }
{
    let mut plan = Writer::new(out);
    plan.put_field(b"deviation=", deviation);
    plan.put_field(b"steps=", steps);
    plan.put_field(b"selections=", selections);
    plan.put_field(b"count=", count as u64);
    put_lines(&mut plan, words, wide, n, count, spares);
    plan.at
}

// The text of a kept table. The three fields take at most 90 bytes, a panel's line 13.
pub fn kept_text(
    out: &mut [u8],
    deviation: i64,
    panels: usize,
    kept: [u8; 6],
    counts: [u8; 6],
    steps: u64,
    selections: u64,
) -> usize
    requires { (200 ≤ length out.old) × (panels ≤ 6) }
    ensures { Writes out.new result (kept_text deviation (each panels (λ i. (get_or kept i 0, get_or counts i 0) ∷ [])) steps selections) }
{
    let mut table = Writer::new(out);
    table.put_field(b"deviation=", deviation);
    put_panels(&mut table, panels, kept, counts);
    table.put_field(b"steps=", steps);
    table.put_field(b"selections=", selections);
    table.at
}

// The text of a timing: 7 bytes of key, at most 126 of times and commas, LF.
pub fn latest_text(out: &mut [u8], n: usize, times: [i64; 6]) -> usize
    requires { (200 ≤ length out.old) × (n ≤ 6) }
    ensures { Writes out.new result (latest_text n (λ j. get_or times j (pos 0))) }
{
    let mut w = Writer::new(out);
    w.put_bytes(b"latest=");
    put_times(&mut w, n, times);
    w.put_byte(b'\n');
    w.at
}

// The text of a refusal: one field, 8 bytes of key and at most 21 behind it. It is a number, since the text is promised of every number.
pub fn refusal_text(out: &mut [u8], refusal: u8) -> usize
    requires { 40 ≤ length out.old }
    ensures { Writes out.new result (refusal_text refusal) }
{
    let mut w = Writer::new(out);
    w.put_field(b"refused=", u64::from(refusal));
    w.at
}

// The text of refusal 9 with the count of lines that would be needed: two such fields.
pub fn full_text(out: &mut [u8], count: u64) -> usize
    requires { 80 ≤ length out.old }
    ensures { Writes out.new result (full_text count) }
{
    let mut w = Writer::new(out);
    w.put_field(b"refused=", 9u64);
    w.put_field(b"count=", count);
    w.at
}
