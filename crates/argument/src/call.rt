// What the system hands a program: how many arguments its call has, and each one's bytes.
ghost use Rattle.std.specs.Prelude.{◌≡◌, List, ℕ, suc, ◌≤◌, length};
ghost use Rattle.io.specs.Counts.{IsPrefixLen};
ghost use Rattle.argument.specs.Times.{numbers};
ghost use Rattle.argument.specs.Inner.{times_of};

use std::env::{Env, FillError};
use timing::Timing;

// How many arguments the call has, counted as far as `most`.
pub fn count<R: Env>(rt: &R, most: usize) -> usize
    ensures { result ≤ most }
{
    let mut place = [0u8; 1];
    for i in 0..most {
        if let Err(FillError::NotPresent) = rt.arg(i + 1, &mut place) {
            return i;
        }
    }
    most
}

// Copies the i-th argument to the front of a space that is longer than any that the system hands over, and says where it ends.
pub fn copied<R: Env>(rt: &R, i: usize, space: &mut [u8]) -> usize
    ensures { IsPrefixLen result space.new }
{
    rt.arg(i, space).unwrap_or(0)
}

// The times that the call's one argument gives, if it has one and that is a list of numerals. The space is longer than any argument that the
// system hands over.
pub fn times<R: Env>(rt: &R) -> Option<Timing>
    ensures { (s : List ℕ) × (result ≡ times_of (numbers (suc (length s)) s)) }
{
    if count(rt, 2) != 1 {
        return None;
    }
    let mut argument = [0u8; 131072];
    let length = copied(rt, 1, &mut argument);
    crate::times(&argument[..length])
}
