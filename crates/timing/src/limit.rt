// The limit on a timing's components: "11: one beyond ±1,000,000,000".
ghost use Rattle.std.specs.Prelude.{◌≡◌, ◌≤◌};
ghost use Rattle.sheet.specs.Times.{beyond, some_beyond};
ghost use Rattle.timing.specs.Times.{component};
ghost use Rattle.cue.specs.Sizes.{size_limit};

use crate::Timing;

const FAR_LIMIT: i64 = 1_000_000_000;

// One of the first n components is beyond the limit.
pub fn beyond(timing: Timing, n: usize) -> bool
    requires { n ≤ size_limit }
    ensures { result ≡ some_beyond n (component timing.at) }
{
    timing.at[..n].iter().any(|x| far_off(*x))
}

fn far_off(x: i64) -> bool
    ensures { result ≡ beyond x }
{
    x > FAR_LIMIT || x < -FAR_LIMIT
}
