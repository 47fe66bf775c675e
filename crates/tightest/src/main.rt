// Whether the times of the argument are tightest for the sheet on standard input, on standard output; for a refusal also a sentence on standard
// error.
#![tactic(auto)]

ghost use Rattle.std.specs.Prelude.{◌≡◌, take};
ghost use Rattle.io.specs.Counts.{IsPrefixLen};
ghost use Rattle.timing.specs.Times.{component};
ghost use Rattle.testing.specs.Testing.{testing, test_answer};
ghost use Rattle.tightest.specs.Output.{tested_text, tested_complaint};

use refusals::Refusal;
use text::Ends;
use timing::Timing;

// What the program writes for a test's answer; the place behind it.
fn answer(tested: Result<bool, Refusal>, out: &mut [u8; 64]) -> usize
    ensures prefix_len { IsPrefixLen result out.new }
    ensures out_after { take result out.new ≡ tested_text (test_answer tested) }
{
    match tested {
        Ok(true) => writing::put_bytes(out, 0, b"tightest=yes\n"),
        Ok(false) => writing::put_bytes(out, 0, b"tightest=no\n"),
        Err(refusal) => text::refusal_text(out, refusal.number()),
    }
}

// What it writes on standard error; the place behind it.
fn complaint(tested: Result<bool, Refusal>, errors: &mut [u8; 400]) -> usize
    ensures prefix_len { IsPrefixLen result errors.new }
    ensures errors_after { take result errors.new ≡ tested_complaint (test_answer tested) }
{
    match tested {
        Ok(_) => 0,
        Err(refusal) => advice::advice_text(errors, refusal.number()),
    }
}

// What the program writes for a sheet and a timing; the places behind the two texts.
fn answers(bytes: &[u8], timing: Timing, out: &mut [u8; 64], errors: &mut [u8; 400]) -> Ends
    ensures prefix_len { IsPrefixLen result.text out.new }
    ensures out_after { take result.text out.new ≡ tested_text (testing bytes.now timing.count (component timing.at)) }
    ensures prefix_len_2 { IsPrefixLen result.complaint errors.new }
    ensures errors_after { take result.complaint errors.new ≡
        tested_complaint (testing bytes.now timing.count (component timing.at)) }
{
    let tested = testing::test_timing(bytes, timing);
    let text = answer(tested, out);
    let complaint = complaint(tested, errors);
    Ends { text, complaint }
}

// One byte more than a sheet may have is enough to refuse it, so no more is read.
fn test_input(timing: Timing) {
    let mut sheet = [0u8; 2049];
    let length = io::read_full(0, &mut sheet);
    let mut out = [0u8; 64];
    let mut errors = [0u8; 400];
    let ends = answers(&sheet[..length], timing, &mut out, &mut errors);
    ends.write(&out, &errors);
}

// A program has no exit status of its own to choose, so a wrong call shows in standard output being empty.
fn main(rt: HostRuntime) {
    match argument::call::times(&rt) {
        Some(timing) => test_input(timing),
        None => {
            io::write_all(
                2,
                b"usage: tightest TIMES < SHEET, where TIMES are whole numbers of milliseconds split by commas, such as 0,1\n",
            );
        }
    }
}
