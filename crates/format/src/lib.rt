// Scheme files: the inner steps that reading and writing share. The rest is theory: scheme files byte by byte, what a file says, and that
// writing and reading are inverse.

#![tactic(auto)]

ghost use Rattle.std.specs.Prelude.{◌≡◌, ◌<◌, ◌≤◌, ◌+◌, ◌*◌};
ghost use Rattle.format.specs.Format.{kind_of};

// The kind of block b.
pub fn kind(b: usize) -> u8
    ensures { result ≡ kind_of b }
{
    match b {
        0 => 1,
        _ => 2,
    }
}

// What the byte at place o of a block adds to the block's check.
pub fn weighted(x: u8, o: usize) -> u32
    requires { o < 508 }
    ensures { (result ≡ x * (o + 1)) × (result ≤ 129540) }
{
    (x as u32) * ((o + 1) as u32)
}
