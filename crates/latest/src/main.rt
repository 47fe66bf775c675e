// The latest tightest timing no later than the times of the argument, for the sheet on standard input, on standard output; for a refusal also a
// sentence on standard error.
#![tactic(auto)]

ghost use Rattle.std.specs.Prelude.{◌≡◌, take};
ghost use Rattle.io.specs.Counts.{IsPrefixLen};
ghost use Rattle.timing.specs.Times.{component};
ghost use Rattle.planning.specs.Planning.{unplanned_number};
ghost use Rattle.advice.specs.Advice.{advice};
ghost use Rattle.writing.specs.Writing.{Writes};
ghost use Rattle.latest.specs.Output.{unplanned_text, program_text, program_complaint};

use planning::{Extent, Unplanned};
use text::Ends;
use timing::Timing;

// "The program lends space for 2,000 lines", as `plan` does: of eight words each. A sheet whose lines take seven gets no more of them.
const LINES: usize = 2000;

// What the program writes for a sheet and the times given; the places behind the two texts.
fn answers(
    bytes: &[u8],
    wish: Timing,
    space: &mut [i32; 16000],
    out: &mut [u8; 200],
    errors: &mut [u8; 400],
) -> Ends
    ensures prefix_len { IsPrefixLen result.text out.new }
    ensures out_after { take result.text out.new ≡ program_text bytes.now wish.count (component wish.at) }
    ensures prefix_len_2 { IsPrefixLen result.complaint errors.new }
    ensures errors_after { take result.complaint errors.new ≡
        program_complaint bytes.now wish.count (component wish.at) }
{
    let reached = match reaching::latest_timing(bytes, wish, space) {
        Ok(reached) => reached,
        Err(unplanned) => return refused(unplanned, out, errors),
    };
    if LINES < reached.count {
        let needed = Extent {
            count: reached.count,
            width: reached.width,
        };
        return refused(Unplanned::NoRoom(needed), out, errors);
    }
    let timing = reached.timing;
    let times = timing.at;
    let latest = text::latest_text(out, timing.count, times);
    Ends {
        text: latest,
        complaint: 0,
    }
}

// What it writes where there is no timing: the refusal, with 9 the count needed, and its sentence. The plan's program has one like it
// for longer texts; a crate for both would stand above the texts and the plan only to hold these lines.
fn refused(unplanned: Unplanned, out: &mut [u8; 200], errors: &mut [u8; 400]) -> Ends
    ensures text { Writes out.new result.text (unplanned_text unplanned) }
    ensures complaint { Writes errors.new result.complaint (advice (unplanned_number unplanned)) }
{
    let complaint = advice::advice_text(errors, unplanned.number());
    let text = match unplanned {
        Unplanned::Refused(refusal) => text::refusal_text(out, refusal.number()),
        Unplanned::NoRoom(needed) => text::full_text(out, needed.count as u64),
    };
    Ends { text, complaint }
}

// One byte more than a sheet may have is enough to refuse it, so no more is read.
fn reach_input(wish: Timing) {
    let mut sheet = [0u8; 2049];
    let length = io::read_full(0, &mut sheet);
    let mut space = [0i32; 16000];
    let mut out = [0u8; 200];
    let mut errors = [0u8; 400];
    let ends = answers(&sheet[..length], wish, &mut space, &mut out, &mut errors);
    ends.write(&out, &errors);
}

// A program has no exit status of its own to choose, so a wrong call shows in standard output being empty.
fn main(rt: HostRuntime) {
    match argument::call::times(&rt) {
        Some(wish) => reach_input(wish),
        None => {
            io::write_all(
                2,
                b"usage: latest TIMES < SHEET, where TIMES are whole numbers of milliseconds split by commas, such as 0,1\n",
            );
        }
    }
}
