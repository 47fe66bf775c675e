// The plan of the sheet on standard input, on standard output; for a refusal also a sentence on standard error.
#![tactic(auto)]

ghost use Rattle.std.specs.Prelude.{◌≡◌, List, ◌+◌, ◌*◌, ◌≤◌, ℤ, length, take};
ghost use Rattle.std.proofs.Math.Option.{Option};
ghost use Rattle.maxplus.specs.Line.{Line};
ghost use Rattle.cue.specs.Standing.{StandsWith};
ghost use Rattle.cue.specs.Written.{line_size, width};
ghost use Rattle.trigger_sets.specs.Sets.{bit};
ghost use Rattle.writing.specs.Texts.{plan_text};
ghost use Rattle.io.specs.Counts.{IsPrefixLen};
ghost use Rattle.planning.specs.Planning.{unplanned_number};
ghost use Rattle.advice.specs.Advice.{advice};
ghost use Rattle.writing.specs.Writing.{Writes};
ghost use Rattle.plan.specs.Output.{unplanned_text, program_text, program_complaint};

use planning::{CuePlan, Extent, Unplanned};
use text::Ends;

// "The program lends space for 2,000 lines": of eight words each. A sheet whose lines take seven gets no more of them.
const LINES: usize = 2000;

// What the program writes for a sheet; the places behind the two texts.
fn answer(
    bytes: &[u8],
    space: &mut [i32; 16000],
    out: &mut [u8; 200200],
    errors: &mut [u8; 400],
) -> Ends
    ensures prefix_len { IsPrefixLen result.text out.new }
    ensures out_after { take result.text out.new ≡ program_text bytes.now }
    ensures prefix_len_2 { IsPrefixLen result.complaint errors.new }
    ensures errors_after { take result.complaint errors.new ≡ program_complaint bytes.now }
{
    let plan = match planning::plan(bytes, space) {
        Ok(plan) => plan,
        Err(unplanned) => return refused(unplanned, out, errors),
    };
    if LINES < plan.count {
        let needed = Extent {
            count: plan.count,
            width: plan.width,
        };
        return refused(Unplanned::NoRoom(needed), out, errors);
    }
    let planned = planned_text(out, plan, space);
    Ends {
        text: planned,
        complaint: 0,
    }
}

// What it writes where there is no plan: the refusal, with 9 the count needed, and its sentence.
fn refused(unplanned: Unplanned, out: &mut [u8; 200200], errors: &mut [u8; 400]) -> Ends
    ensures text { Writes out.new result.text (unplanned_text unplanned) }
    ensures complaint { Writes errors.new result.complaint (advice (unplanned_number unplanned)) }
{
    let complaint = advice::advice_text(errors, unplanned.number());
    let text = match unplanned {
        Unplanned::Refused(refusal) => text::refusal_text(out, refusal.number()),
        Unplanned::NoRoom(needed) => text::full_text(out, needed.count as u64),
    };
    Ends { text, complaint }
}

// The text of a plan whose lines stand in the space.
fn planned_text(out: &mut [u8], plan: CuePlan, space: &[i32]) -> usize
    requires { (100 * plan.count + 200 ≤ length out.old) × (plan.triggers ≤ 6) × (line_size ≤ plan.width) ×
        (plan.width * plan.count ≤ length space.now) }
    ensures within { result ≤ length out.new }
    ensures text { (caps : Option (Line plan.triggers → ℤ)) (L : List (Line plan.triggers)) → plan.width ≡ width caps →
        StandsWith plan.triggers plan.count space.now caps L → take result out.new ≡
        plan_text plan.triggers (bit plan.spares) plan.deviation plan.steps plan.selections caps L }
{
    text::plan_text(
        out,
        plan.deviation,
        u64::from(plan.steps),
        u64::from(plan.selections),
        plan.triggers,
        plan.spares,
        space,
        plan.width,
        plan.count,
    )
}

// One byte more than a sheet may have is enough to refuse it, so no more is read.
fn main() {
    let mut sheet = [0u8; 2049];
    let length = io::read_full(0, &mut sheet);
    let mut space = [0i32; 16000];
    let mut out = [0u8; 200200];
    let mut errors = [0u8; 400];
    let ends = answer(&sheet[..length], &mut space, &mut out, &mut errors);
    ends.write(&out, &errors);
}
