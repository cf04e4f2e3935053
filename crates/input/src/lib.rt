// Input read into places that are lent.

#![tactic(auto)]

ghost use Rattle.std.specs.Prelude.{◌≡◌, ◌<◌, ◌≤◌, length, take, IfOk};
ghost use Rattle.std.specs.Io.KnownBytes.{Consumes, IsAtEnd};

use std::io;
use std::io::Read;

// Reads until the places are full or the input ends, in whatever pieces it comes; how many bytes came.
pub fn read_full<R: Read>(from: &mut R, space: &mut [u8]) -> io::Result<usize>
    ensures bound { IfOk result (λ n. n ≤ length space.new) }
    ensures bytes { IfOk result (λ n. Consumes (R.remaining from.old) (R.remaining from.new) (take n space.new)) }
    ensures end { IfOk result (λ n. n < length space.new → IsAtEnd (R.remaining from.new)) }
{
    // No `for`: the place moves on by as many bytes as a read gives.
    let mut n = 0;
    while n < space.len() {
        let got = from.read(&mut space[n..])?;
        if got == 0 {
            return Ok(n);
        }
        n += got;
    }
    Ok(n)
}
