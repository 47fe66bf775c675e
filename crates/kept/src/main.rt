// The kept table and the walk's numbers of the sheet on standard input, on standard output; for a refusal also a sentence on standard error.
#![tactic(auto)]

ghost use Rattle.std.specs.Prelude.{◌≡◌, take};
ghost use Rattle.io.specs.Counts.{IsPrefixLen};
ghost use Rattle.keeping.specs.Keeping.{keeping};
ghost use Rattle.kept.specs.Output.{kept_output, kept_complaint};

use text::Ends;

// What the program writes for a sheet; the places behind the two texts.
fn answer(bytes: &[u8], out: &mut [u8; 256], errors: &mut [u8; 400]) -> Ends
    ensures prefix_len { IsPrefixLen result.text out.new }
    ensures out_after { take result.text out.new ≡ kept_output (keeping bytes.now) }
    ensures prefix_len_2 { IsPrefixLen result.complaint errors.new }
    ensures errors_after { take result.complaint errors.new ≡ kept_complaint (keeping bytes.now) }
{
    let table = match keeping::kept_table(bytes) {
        Ok(table) => table,
        Err(refusal) => {
            let complaint = advice::advice_text(errors, refusal.number());
            let refused = text::refusal_text(out, refusal.number());
            return Ends {
                text: refused,
                complaint,
            };
        }
    };
    let kept = table.kept;
    let counts = table.counts;
    let listed = text::kept_text(
        out,
        table.deviation,
        table.panels,
        kept,
        counts,
        u64::from(table.steps),
        u64::from(table.selections),
    );
    Ends {
        text: listed,
        complaint: 0,
    }
}

// One byte more than a sheet may have is enough to refuse it, so no more is read.
fn main() {
    let mut sheet = [0u8; 2049];
    let length = io::read_full(0, &mut sheet);
    let mut out = [0u8; 256];
    let mut errors = [0u8; 400];
    let ends = answer(&sheet[..length], &mut out, &mut errors);
    ends.write(&out, &errors);
}
