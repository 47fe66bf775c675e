// A sheet of a load that can be repeated, on standard output; for a refusal also a sentence on standard error.
#![tactic(auto)]

ghost use Rattle.std.specs.Prelude.{◌≡◌, [], take};
ghost use Rattle.io.specs.Counts.{IsPrefixLen};
ghost use Rattle.sheet.specs.Sheet.{got};
ghost use Rattle.writing.specs.Writing.{Writes};
ghost use Rattle.hire.specs.Call.{Wanted};
ghost use Rattle.hire.specs.Output.{hire_text, hire_complaint, program_hire, usage, program_text, program_complaint};
ghost use Rattle.hire.specs.Inner.{held};

use argument::call;
use asking::{Call, call_of};
use hiring::chain::later_state;
use std::env::Env;
use text::Ends;
use writing::put_bytes;

mod asking;

// What the program writes for its arguments; the places behind the two texts.
fn answers(
    panels: &[u8],
    triggers: &[u8],
    state: &[u8],
    number: &[u8],
    out: &mut [u8; 2048],
    errors: &mut [u8; 400],
) -> Ends
    ensures prefix_len { IsPrefixLen result.text out.new }
    ensures out_after { take result.text out.new ≡
        program_text panels.now triggers.now state.now number.now }
    ensures prefix_len_2 { IsPrefixLen result.complaint errors.new }
    ensures errors_after { take result.complaint errors.new ≡
        program_complaint panels.now triggers.now state.now number.now }
{
    let Some(asked) = call_of(panels, triggers, state, number) else {
        let usage = usage_text(errors);
        return Ends {
            text: 0,
            complaint: usage,
        };
    };
    hired_text(asked, out, errors)
}

// How to call the program.
fn usage_text(errors: &mut [u8; 400]) -> usize
    ensures prefix_len { IsPrefixLen result errors.new }
    ensures writes { Writes errors.new result usage }
{
    put_bytes(
        errors,
        0,
        b"usage: hire PANELS TRIGGERS STATE [NUMBER], where STATE is from 0 to 4294967295 and NUMBER, 1 where none is given, tells which sheet of the chain\n",
    )
}

// What the program writes for a good call.
fn hired_text(asked: Call, out: &mut [u8; 2048], errors: &mut [u8; 400]) -> Ends
    ensures { (w : Wanted) → Some asked ≡ held (got w []) → (Writes out.new result.text (hire_text (program_hire w)) ×
        Writes errors.new result.complaint (hire_complaint (program_hire w))) }
{
    let state = later_state(asked.panels, asked.triggers, asked.state, asked.before);
    match hiring::hire(asked.panels, asked.triggers, state, out) {
        Ok(hired) => Ends {
            text: hired.length,
            complaint: 0,
        },
        Err(refusal) => {
            let complaint = advice::advice_text(errors, refusal.number());
            let refused = text::refusal_text(out, refusal.number());
            Ends {
                text: refused,
                complaint,
            }
        }
    }
}

// Writes what the other arguments and this number ask for. The space of each is longer than any argument that the system hands over.
fn write_sheet<R: Env>(rt: &R, number: &[u8]) {
    let mut panels = [0u8; 131072];
    let panels_end = call::copied(rt, 1, &mut panels);
    let mut triggers = [0u8; 131072];
    let triggers_end = call::copied(rt, 2, &mut triggers);
    let mut state = [0u8; 131072];
    let state_end = call::copied(rt, 3, &mut state);
    let mut out = [0u8; 2048];
    let mut errors = [0u8; 400];
    let ends = answers(
        &panels[..panels_end],
        &triggers[..triggers_end],
        &state[..state_end],
        number,
        &mut out,
        &mut errors,
    );
    ends.write(&out, &errors);
}

// A program has no exit status of its own to choose, so a wrong call shows in standard output being empty.
fn main(rt: HostRuntime) {
    match call::count(&rt, 5) {
        3 => {
            write_sheet(&rt, b"1");
        }
        4 => {
            let mut number = [0u8; 131072];
            let length = call::copied(&rt, 4, &mut number);
            write_sheet(&rt, &number[..length]);
        }
        _ => {
            let mut errors = [0u8; 400];
            let usage = usage_text(&mut errors);
            io::write_all(2, &errors[..usage]);
        }
    }
}
