// The lines in a lent space, made of the triggers in use, laid out over all triggers of the sheet: each component at its own, and "In the lent
// space a spare component is absent".
ghost use Rattle.std.specs.Prelude.{◌≡◌, List, ◌++◌, Bool, ℕ, ◌+◌, ◌*◌, ◌≤◌, ℤ, pos, length, get_or, take, drop};
ghost use Rattle.maxplus.specs.Finite.{map_l};
ghost use Rattle.maxplus.specs.Line.{Line};
ghost use Rattle.maxplus.specs.Packing.{rank, layout};
ghost use Rattle.cue.specs.Sizes.{six};
ghost use Rattle.cue.specs.Written.{line_size, line_words, list_words};
ghost use Rattle.buffer.specs.Space.{laid};
ghost use Rattle.spares.specs.Using.{PlacesOf};

use spares::Places;
use trigger_sets::has;
use words::LINE_SIZE;

// The six components of the line that begins at a place.
pub fn components(space: &[i32], from: usize) -> [i32; 6]
    requires { from + line_size ≤ length space.now }
    ensures { result ≡ six (λ j. get_or space.now (from + 1 + j) (pos 0)) }
{
    let mut r = [0i32; 6];
    r.copy_from_slice(&space[from + 1..from + LINE_SIZE]);
    r
}

// One line laid out.
fn lay_line(space: &mut [i32], from: usize, p: Places)
    requires { (from + line_size ≤ length space.old) × ((s : ℕ → Bool) × (n : ℕ) × PlacesOf s n p) }
    ensures { (s : ℕ → Bool) (n : ℕ) → PlacesOf s n p → (c : Line (rank s n)) →
        take line_size (drop from space.old) ≡ line_words (rank s n) c →
        space.new ≡ laid space.old from (line_words n (layout s (rank s n) n c)) }
{
    let packed = components(space, from);
    let n = p.triggers;
    space[from] = n as i32;
    let mut k: usize = 0;
    for j in 0..6 {
        if has(p.used, j) {
            space[from + 1 + j] = packed[k];
            k += 1;
        } else {
            space[from + 1 + j] = words::signed(0);
        }
    }
}

// The first `count` lines of a space laid out, and the rest as it was. With no spare trigger the lines stand as they should.
pub fn lay_out(space: &mut [i32], count: usize, p: Places)
    requires { (line_size * count ≤ length space.old) × ((s : ℕ → Bool) × (n : ℕ) × PlacesOf s n p) }
    ensures { (s : ℕ → Bool) (n : ℕ) → PlacesOf s n p → (L : List (Line (rank s n))) (rest : List ℤ) → length L ≡ count →
        space.old ≡ list_words (rank s n) L ++ rest →
        space.new ≡ list_words n (map_l (layout s (rank s n) n) L) ++ rest }
{
    if p.spares == 0 {
        return;
    }
    for i in 0..count {
        lay_line(space, LINE_SIZE * i, p);
    }
}
