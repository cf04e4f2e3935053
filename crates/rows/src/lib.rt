// The question of the chosen rows: is the target (1, 0, .., 0) a combination of them? `ask` answers it for up to 32 rows of up to 12
// numbers, with the vector r or the witness z and the number of kept rows. One working table of 1,296 bytes, row by row.

#![tactic(auto)]

ghost use Rattle.std.specs.Prelude.{◌≡◌, ◌&&◌, ℕ, ◌<◌, ◌≤◌, ◌*◌, ◌+◌, ◌-◌, eqb, ltb, length, get_or, set};
ghost use Rattle.residue.specs.Prime.{Prime};
ghost use Rattle.lines.specs.Line.{Low, Lows, Pivots, Stepped};
ghost use Rattle.linear.specs.Bits.{bit};
ghost use Rattle.rows.specs.Answered.{Answered};
ghost use Rattle.rows.specs.State.{row_at, Next};

use residue::{Modulus, PrimeModulus};

// Whether the chosen rows are open, and how many of them are kept: a number that both answers have, so no Option of it.
#[derive(Drop)]
pub struct Answer {
    pub opens: bool,
    pub rank: usize,
}

// Row k of the entries in the working order: columns 2, .., e, 1.
fn load(m: Modulus, e: usize, k: usize, entries: &[u32]) -> [u32; 27]
    requires le_e { (1 ≤ e) × (e ≤ 12) × (k < 65536) × (k * e + e ≤ length entries.now) }
    requires low_2 { Low m.p entries.now }
    ensures low { Low m.p result }
    ensures row { (i : ℕ) → i < e → get_or result i 0 ≡ row_at e entries.now k i }
{
    let mut v = [0u32; 27];
    let b = k * e;
    v[..e - 1].copy_from_slice(&entries[b + 1..b + e]);
    v[e - 1] = entries[b];
    v
}

// Whether row k is to be gone through: it is chosen, and not every place is a pivot yet (after that no row is kept).
fn wanted(e: usize, chosen: u32, k: usize, s: usize) -> bool
    requires { k < 32 }
    ensures { result ≡ (ltb s e && bit chosen k) }
{
    s < e && (chosen >> k) % 2 == 1
}

// What row k gives: its line, or a line without a pivot.
pub fn next_line(
    f: PrimeModulus,
    e: usize,
    chosen: u32,
    k: usize,
    s: usize,
    entries: &[u32],
    t: &[[u32; 27]; 12],
) -> [u32; 27]
    requires le_e { (1 ≤ e) × (e ≤ 12) × (k < 32) × (s ≤ 12) × (k * e + e ≤ length entries.now) }
    requires low { Low f.m.p entries.now }
    requires lows { Lows f.m.p t.now }
    requires pivots { Pivots t.now s }
    requires stepped { Stepped f.m.p t.now s }
    ensures { Next f.m.p e k s (ltb s e && bit chosen k) entries.now t.now result }
{
    if wanted(e, chosen, k, s) {
        let row = load(f.m, e, k, entries);
        return lines::line(f, e, k, s, row, t);
    }
    lines::marked(f.m, [0u32; 27], 0, e, k)
}

// The line kept where it has a pivot; the number of lines after that.
pub fn store(e: usize, s: usize, v: [u32; 27], t: &mut [[u32; 27]; 12]) -> usize
    requires { get_or v 25 0 < e → s < 12 }
    ensures kept { get_or v 25 0 < e → (result ≡ s + 1) × (t.new ≡ set t.old s v) }
    ensures dropped { e ≤ get_or v 25 0 → (result ≡ s) × (t.new ≡ t.old) }
{
    if (v[25] as usize) < e {
        t[s] = v;
        return s + 1;
    }
    s
}

// Whether the line's pivot is at the last place, which is column 1: then the line is the target.
pub fn is_target(e: usize, v: &[u32; 27]) -> bool
    requires { get_or v.now 25 0 ≤ 12 }
    ensures { result ≡ eqb (get_or v.now 25 0 + 1) e }
{
    (v[25] as usize) + 1 == e
}

// The witness in the document's order: the last place first.
pub fn unload(y: &[u32; 27], z: &mut [u32])
    requires { (1 ≤ length z.old) × (length z.old ≤ 12) }
    ensures first { (length z.new ≡ length z.old)
        × (get_or z.new 0 0 ≡ get_or y.now (length z.old - 1) 0) }
    ensures others { (i : ℕ) → i < length z.old - 1 → get_or z.new (1 + i) 0 ≡ get_or y.now i 0 }
{
    let f = z.len() - 1;
    z[1..].copy_from_slice(&y[..f]);
    z[0] = y[f];
}

// Are the chosen rows open? r is written where they are, z where they are not, and the other list stays. Row k is chosen when bit k of
// `chosen` is one; bits from d up do not matter.
// Wrong answers that the contract rules out: "open" with weights that do not add up to the target, or at a row that is not kept;
// "closed" with a witness that some chosen row does not kill; "closed" because there are fewer rows than columns.
pub fn ask(
    p: u32,
    d: usize,
    e: usize,
    chosen: u32,
    entries: &[u32],
    r: &mut [u32],
    z: &mut [u32],
) -> Answer
    requires prime { Prime p }
    requires d_bound { (d ≤ 32) × (1 ≤ e) × (e ≤ 12) × (length entries.now ≡ d * e)
        × (length r.old ≡ d) × (length z.old ≡ e) }
    requires by_index { (i : ℕ) → get_or entries.now i 0 < p }
    ensures { Answered p d e chosen entries.now r.old z.old
        result r.new z.new }
{
    let f = PrimeModulus::new(p);
    let mut t = [[0u32; 27]; 12];
    let mut opens = false;
    let mut s = 0;
    for k in 0..d {
        let v = next_line(f, e, chosen, k, s, entries, &t);
        if is_target(e, &v) {
            backward::opening(f.m, s, k, &v, &t, r);
            opens = true;
        }
        s = store(e, s, v, &mut t);
    }
    if !opens {
        let y = backward::killing(f.m, e, s, &t);
        unload(&y, z);
    }
    Answer { opens, rank: s }
}
