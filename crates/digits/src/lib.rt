// Numbers and byte strings printed into a lent list of bytes, each from a place on that the caller names: inner steps of what prints. They are
// written out, since document 01 asks for these texts to the byte and its definitions (specs/Digits) say which bytes.

#![tactic(auto)]

ghost use Rattle.std.specs.Prelude.{◌≡◌, ◌+◌, ◌<◌, ◌≤◌, nat_abs, length};
ghost use Rattle.digits.specs.Digits.{decimal, nearest, whole_text};
ghost use Rattle.digits.specs.Put.{Put};

// A text from place `at` on; the place after it.
pub fn put_text(out: &mut [u8], at: usize, text: &[u8]) -> usize
    requires { at + length text.now ≤ length out.old }
    ensures { Put out.old at text.now result out.new }
{
    let end = at + text.len();
    out[at..end].copy_from_slice(text);
    end
}

// The digits of n.
fn put_decimal(out: &mut [u8], at: usize, n: u32) -> usize
    requires { at + length (decimal n) ≤ length out.old }
    ensures { Put out.old at (decimal n) result out.new }
{
    if n < 10 {
        out[at] = 48 + n as u8;
        return at + 1;
    }
    let last = put_decimal(out, at, n / 10);
    out[last] = 48 + (n % 10) as u8;
    last + 1
}

// Any number of 32 bits: it has ten digits at most.
pub fn put_number(out: &mut [u8], at: usize, n: u32) -> usize
    requires { at + 10 ≤ length out.old }
    ensures put { Put out.old at (decimal n) result out.new }
    ensures room { result ≤ at + 10 }
{
    put_decimal(out, at, n)
}

// A residue turned to a signed integer: exact at 0, at half the modulus and at p = 2.
fn near(p: u32, v: u32) -> i64
    requires { v < p }
    ensures { result ≡ nearest p v }
{
    if v <= p - v {
        return v as i64;
    }
    (v as i64) - (p as i64)
}

// The distance from zero.
fn distance(z: i64) -> u32
    requires { nat_abs z < 4294967296 }
    ensures { result ≡ nat_abs z }
{
    z.unsigned_abs() as u32
}

// A whole number, with its sign where it is below zero.
fn put_whole(out: &mut [u8], at: usize, z: i64) -> usize
    requires { (nat_abs z < 4294967296) × (at + length (whole_text z) ≤ length out.old) }
    ensures { Put out.old at (whole_text z) result out.new }
{
    let m = distance(z);
    if z < 0 {
        out[at] = 45;
        return put_decimal(out, at + 1, m);
    }
    put_decimal(out, at, m)
}

// A residue as the whole number nearest to zero: a sign and five digits at most.
pub fn put_residue(out: &mut [u8], at: usize, p: u32, v: u32) -> usize
    requires { (v < p) × (p < 65536) × (at + 6 ≤ length out.old) }
    ensures put { Put out.old at (whole_text (nearest p v)) result out.new }
    ensures room { result ≤ at + 6 }
{
    let z = near(p, v);
    put_whole(out, at, z)
}
