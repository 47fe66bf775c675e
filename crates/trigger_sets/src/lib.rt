// Sets of triggers, "six bits in a byte, bit 0 for trigger 1": whether a trigger is in one, its lowest trigger and the others,
// and how many it has.
#![tactic(auto)]

ghost use Rattle.std.specs.Prelude.{◌≡◌, ◌-◌, ◌<◌};
ghost use Rattle.std.specs.Int.Bits.{bit_and};
ghost use Rattle.std.specs.Int.Count as count;
ghost use Rattle.trigger_sets.specs.Sets.{bit};

pub fn has(set: u8, j: usize) -> bool
    requires { j < 8 }
    ensures { result ≡ bit set j }
{
    (set >> j) % 2 == 1
}

// The lowest trigger of a set that is not empty. A count of eight bits fits a byte, so `as` loses nothing, where TryFrom would add an error.
pub fn low(set: u8) -> u8
    requires { (0 < set) × (set < 64) }
    ensures { result ≡ count.count_trailing_zeros 8 set }
{
    set.trailing_zeros() as u8
}

// The others of a set that is not empty.
pub fn others(set: u8) -> u8
    requires { (0 < set) × (set < 64) }
    ensures is { result ≡ bit_and set (set - 1) }
    ensures fewer { result < set }
{
    set & (set - 1)
}

// "the number of bits set is reported with it"
pub fn ones(set: u8) -> u8
    ensures { result ≡ count.ones set }
{
    set.count_ones() as u8
}
