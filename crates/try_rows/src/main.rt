// A run of rows::ask: ten matrices, every choice of up to 8 rows and 50 choices of more. A question is a line, `p d e choice OPEN rank r..`
// or `p d e choice CLOSED rank z..`, and ` CHANGED` at its end where the list of the other verdict is not as it was before the call.
// The file stdout has the answers of a second program (tools/expect_rows.py).

#![tactic(auto)]

ghost use Rattle.std.specs.Prelude.{◌≡◌, ℕ, ◌<◌, ◌≤◌, ◌*◌, length, get_or};
ghost use Rattle.residue.specs.Prime.{Prime};

use residue::Modulus;
use std::io;
use std::io::{BufWriter, Write};

// What both result lists hold before a question.
const MARK: u32 = 61681;

// The generator: the number after x.
fn step(x: u32) -> u32 {
    (((x as u64) * 1103515245 + 12345) % 2147483648) as u32
}

// An entry, before it is reduced: about one in four is 0.
fn number(x: u32) -> u32 {
    if x / 65536 % 4 == 0 {
        return 0;
    }
    x / 8192
}

// The entry w places before place i.
fn back(m: &[u32], i: usize, w: usize) -> u32 {
    if i < w {
        return 0;
    }
    m.get(i - w).copied().unwrap_or(0)
}

// What is added to a row of sums: the target at rows 3, 11, 19, ..
fn added(k: usize, j: usize) -> u32 {
    if j > 0 {
        return 0;
    }
    if k % 8 == 3 {
        return 1;
    }
    0
}

// Column j of row k of powers: 1, k + 1, (k + 1)^2, .., for up to 32 rows.
fn power(modulus: Modulus, k: usize, j: usize, m: &[u32], i: usize) -> u32 {
    if j == 0 {
        return 1;
    }
    if k > 31 {
        return 0;
    }
    modulus.mul(back(m, i, 1), (k + 1) as u32)
}

// Column j of a row that is the sum of the two rows before it.
fn sum(modulus: Modulus, e: usize, k: usize, j: usize, m: &[u32], i: usize) -> u32
    requires { e ≤ 12 }
{
    let s = modulus.add(back(m, i, e), back(m, i, e + e));
    modulus.add(s, added(k, j))
}

// The entry at place i, before it is reduced. Seed 0 stands for rows of powers; else every fourth row is a sum.
fn entry(modulus: Modulus, e: usize, seed: u32, x: u32, m: &[u32], i: usize) -> u32
    requires { (1 ≤ e) × (e ≤ 12) }
{
    let k = i / e;
    let j = i % e;
    if seed == 0 {
        return power(modulus, k, j, m, i);
    }
    if k % 4 == 3 {
        return sum(modulus, e, k, j, m, i);
    }
    number(x)
}

// The matrix of a seed.
fn fill(modulus: Modulus, e: usize, seed: u32, m: &mut [u32])
    requires { (1 ≤ e) × (e ≤ 12) }
    ensures { (i : ℕ) → get_or m.new i 0 < modulus.p }
{
    let mut x = seed;
    for i in 0..m.len() {
        x = step(x);
        m[i] = modulus.reduce(entry(modulus, e, seed, x, m, i) as u64);
    }
}

// How many choices of d rows are asked: all of up to 8 rows, else 50.
fn choices(d: usize) -> u32 {
    if d > 8 {
        return 50;
    }
    1 << d
}

// A choice of more than 8 rows from 16 bits: with more than 16 rows, rows k and k + 16 go together.
fn spread(d: usize, c: u32) -> u32
    requires { c < 65536 }
{
    if d > 16 {
        return c * 65537;
    }
    c >> (16 - d)
}

// Choice number n of d rows: n itself for up to 8 rows; else none, all, and what the generator gives.
fn choice(d: usize, n: u32, x: u32) -> u32 {
    if d <= 8 {
        return n;
    }
    if n == 0 {
        return 0;
    }
    if n == 1 {
        return spread(d, 65535);
    }
    spread(d, x / 8192 % 65536)
}

// The end of a line, from the verdict on.
fn show(
    to: &mut impl Write,
    verdict: &[u8],
    rank: usize,
    told: &[u32],
    other: &[u32],
) -> io::Result<()> {
    to.write_all(verdict)?;
    write!(to, "{rank}")?;
    for x in told {
        write!(to, " {x}")?;
    }
    if other.iter().any(|x| *x != MARK) {
        to.write_all(b" CHANGED")?;
    }
    to.write_all(b"\n")
}

fn show_either(to: &mut impl Write, a: rows::Answer, r: &[u32], z: &[u32]) -> io::Result<()> {
    if a.opens {
        return show(to, b"OPEN ", a.rank, r, z);
    }
    show(to, b"CLOSED ", a.rank, z, r)
}

// One question, asked of marked lists, and its line.
fn question(
    to: &mut impl Write,
    p: u32,
    d: usize,
    e: usize,
    chosen: u32,
    m: &[u32],
    r: &mut [u32],
    z: &mut [u32],
) -> io::Result<()>
    requires prime { Prime p }
    requires d_bound { (d ≤ 32) × (1 ≤ e) × (e ≤ 12) × (length m.now ≡ d * e) × (length r.old ≡ d) × (length z.old ≡ e) }
    requires by_index { (i : ℕ) → get_or m.now i 0 < p }
{
    r.fill(MARK);
    z.fill(MARK);
    write!(to, "{p} {d} {e} {chosen} ")?;
    let a = rows::ask(p, d, e, chosen, m, r, z);
    show_either(to, a, r, z)
}

// The questions of one matrix.
fn questions(
    to: &mut impl Write,
    p: u32,
    d: usize,
    e: usize,
    seed: u32,
    m: &[u32],
    r: &mut [u32],
    z: &mut [u32],
) -> io::Result<()>
    requires prime { Prime p }
    requires d_bound { (d ≤ 32) × (1 ≤ e) × (e ≤ 12) × (length m.now ≡ d * e) × (length r.old ≡ d) × (length z.old ≡ e) }
    requires by_index { (i : ℕ) → get_or m.now i 0 < p }
{
    let last = choices(d);
    let mut x = seed;
    for n in 0..last {
        x = step(x);
        question(to, p, d, e, choice(d, n, x), m, r, z)?;
    }
    Ok(())
}

fn matrix(
    to: &mut impl Write,
    p: u32,
    d: usize,
    e: usize,
    seed: u32,
    m: &mut [u32],
    r: &mut [u32],
    z: &mut [u32],
) -> io::Result<()>
    requires prime { Prime p }
    requires d_bound { (d ≤ 32) × (1 ≤ e) × (e ≤ 12) × (length m.old ≡ d * e) × (length r.old ≡ d) × (length z.old ≡ e) }
{
    fill(Modulus::new(p), e, seed, m);
    questions(to, p, d, e, seed, m, r, z)
}

// The lists cut to their lengths, where the numbers are allowed.
fn sized(
    to: &mut impl Write,
    p: u32,
    d: usize,
    e: usize,
    seed: u32,
    m: &mut [u32],
    r: &mut [u32],
    z: &mut [u32],
) -> io::Result<()> {
    if !residue::is_modulus(p) || d > 32 || e < 1 || e > 12 {
        return Ok(());
    }
    let w = d * e;
    if w > m.len() || d > r.len() || e > z.len() {
        return Ok(());
    }
    matrix(to, p, d, e, seed, &mut m[..w], &mut r[..d], &mut z[..e])
}

fn case(to: &mut impl Write, p: u32, d: usize, e: usize, seed: u32) -> io::Result<()> {
    let mut m = [0u32; 384];
    let mut r = [0u32; 32];
    let mut z = [0u32; 12];
    sized(to, p, d, e, seed, &mut m, &mut r, &mut z)
}

// The first is document 01's S.
fn main(rt: HostRuntime) -> io::Result<()> {
    let mut to = BufWriter::new(rt.alloc(), io::writer(&rt))?;
    case(&mut to, 17, 5, 3, 0)?;
    case(&mut to, 2, 6, 4, 1)?;
    case(&mut to, 3, 8, 5, 2)?;
    case(&mut to, 5, 4, 6, 3)?;
    case(&mut to, 31, 3, 1, 4)?;
    case(&mut to, 2, 16, 12, 5)?;
    case(&mut to, 257, 12, 12, 6)?;
    case(&mut to, 8191, 16, 8, 7)?;
    case(&mut to, 65521, 16, 8, 8)?;
    case(&mut to, 65521, 32, 12, 9)?;
    to.flush()
}
