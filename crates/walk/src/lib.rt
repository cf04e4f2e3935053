// Many sets asked one after another, each from where it parts from the one before it: the table only grows at its end while rows are gone
// through, so the lines of the rows that two sets have in common can stay. Which sets are asked, and in what order, is a matter of speed
// alone: an answer is kept in its place, and whoever reads a place that has none asks the set by itself.

#![tactic(auto)]

ghost use Rattle.std.specs.Prelude.{◌≡◌, [], ℕ, ◌<◌, ◌≤◌, ◌+◌, ◌*◌, ◌-◌, length, get_or};
ghost use Rattle.linear.specs.Bits.{bit};
ghost use Rattle.linear.specs.Flat.{entry};
ghost use Rattle.lines.specs.Line.{Lows, at};
ghost use Rattle.walk.specs.Going.{Marks, Agree, Walked, Kills};
ghost use Rattle.walk.specs.Answers.{Told, Kept};

use residue::PrimeModulus;
use scheme::Checked;

// The answer of a set, in the first numbers of a row: r of an open one, z of a closed one.
#[derive(Clone, Copy)]
pub enum Answer {
    Open([u32; 32]),
    Closed([u32; 32]),
}

// How many rows from the first on the two choices have alike, of the first `most`.
fn alike(a: u32, b: u32, most: usize) -> usize
    requires { most ≤ 32 }
    ensures { (result ≤ most) × Agree result (bit a) (bit b) }
{
    for k in 0..most {
        if (a >> k) % 2 != (b >> k) % 2 {
            return k;
        }
    }
    most
}

// Goes through the rows from `from` on until one gives the target: that row, with r; or d, as `Walked` (specs/Going.antt) has it.
// The row is a number, d for none: as an `Option` it was tried and proved, and the sheets took 2 to 4 percent longer.
fn go_on(
    f: PrimeModulus,
    d: usize,
    e: usize,
    chosen: u32,
    from: usize,
    entries: &[u32],
    t: &mut [[u32; 27]; 12],
    counts: &mut [u32; 33],
    r: &mut [u32],
) -> usize
    requires d_bound { (d ≤ 32) × (1 ≤ e) × (e ≤ 12) × (length entries.now ≡ d * e) × (from ≤ d) × (length r.old ≡ d) }
    requires by_index { (i : ℕ) → get_or entries.now i 0 < f.m.p }
    requires marks { Marks f.m.p (e - 1) (entry e entries.now) (bit chosen) from counts.old t.old }
    ensures { Walked f.m.p d e (entry e entries.now) (bit chosen) result
        counts.new t.new r.new }
{
    let mut s = counts[from] as usize;
    for k in from..d {
        if (chosen >> k) % 2 == 1 {
            let v = rows::next_line(f, e, chosen, k, s, entries, t);
            if rows::is_target(e, &v) {
                backward::opening(f.m, s, k, &v, t, r);
                return k;
            }
            s = rows::store(e, s, v, t);
        }
        counts[k + 1] = s as u32;
    }
    d
}

// From one choice of rows to another: where they are alike up to the row that gave the target, r is the answer again.
fn step(
    f: PrimeModulus,
    d: usize,
    e: usize,
    last: u32,
    chosen: u32,
    row: usize,
    entries: &[u32],
    t: &mut [[u32; 27]; 12],
    counts: &mut [u32; 33],
    r: &mut [u32],
) -> usize
    requires d_bound { (d ≤ 32) × (1 ≤ e) × (e ≤ 12) × (length entries.now ≡ d * e) × (length r.old ≡ d) }
    requires by_index { (i : ℕ) → get_or entries.now i 0 < f.m.p }
    requires walked { Walked f.m.p d e (entry e entries.now) (bit last) row counts.old t.old r.old }
    ensures { Walked f.m.p d e (entry e entries.now) (bit chosen) result
        counts.new t.new r.new }
{
    let k = alike(last, chosen, d);
    if row < k {
        return row;
    }
    go_on(f, d, e, chosen, k, entries, t, counts, r)
}

// The witness, in the document's order, of a table that has gone through all rows.
fn witness_row(f: PrimeModulus, e: usize, lines: usize, t: &[[u32; 27]; 12]) -> [u32; 32]
    requires le_e { (1 ≤ e) × (e ≤ 12) × (lines ≤ 12) }
    requires lows { Lows f.m.p t.now }
    requires by_index { (j : ℕ) → j < lines → at t.now j 25 < e - 1 }
    ensures { Kills f.m.p e lines t.now result }
{
    let y = backward::killing(f.m, e, lines, t);
    let mut own = [0u32; 32];
    rows::unload(&y, &mut own[..e]);
    own
}

// The place that is the i-th to be asked: where their number is a power of two its bits turned round, so that participants whose rows
// come early change seldom.
fn turned(i: u32, count: u32) -> u32
    requires { (i < count) × (count ≤ 4096) }
    ensures { result < count }
{
    let mut x: u32 = 0;
    let mut left = i;
    let mut end: u32 = 1;
    while end < count {
        x = x * 2 + left % 2;
        left /= 2;
        end *= 2;
    }
    if x < count {
        return x;
    }
    i
}

// What is kept of a set: r, or the witness where all rows are gone through.
fn answer_of(
    f: PrimeModulus,
    d: usize,
    e: usize,
    row: usize,
    lines: u32,
    t: &[[u32; 27]; 12],
    r: [u32; 32],
) -> Answer
    requires le_e { (1 ≤ e) × (e ≤ 12) }
    requires lows { Lows f.m.p t.now }
    requires lines_bound { d ≤ row → (lines ≤ 12) × ((j : ℕ) → j < lines → at t.now j 25 < e - 1) }
    ensures { Told f.m.p d e row lines t.now r result }
{
    if row < d {
        return Answer::Open(r);
    }
    Answer::Closed(witness_row(f, e, lines as usize, t))
}

// The sets from `base` on, `count` of them, asked in turn: the slots are filled with their answers.
pub fn fill(scheme: Checked<'_>, base: u32, count: u32, slots: &mut [Option<Answer>; 4096])
    requires count_bound { (base + count ≤ 65536) × (count ≤ 4096) }
    ensures { Kept scheme.entry.shape scheme.entry.labels.now scheme.entry.entries.now base slots.new }
{
    slots.fill(None);
    let s = scheme.shape;
    let f = PrimeModulus::new(s.p);
    let d = s.d;
    let mut t = [[0u32; 27]; 12];
    let mut counts = [0u32; 33];
    let mut r = [0u32; 32];
    let mut last: u32 = 0;
    let mut row = go_on(
        f,
        d,
        s.e,
        last,
        0,
        scheme.entries,
        &mut t,
        &mut counts,
        &mut r[..d],
    );
    for i in 0..count {
        let x = turned(i, count);
        let chosen = sets::chosen_rows(base + x, scheme.labels);
        row = step(
            f,
            d,
            s.e,
            last,
            chosen,
            row,
            scheme.entries,
            &mut t,
            &mut counts,
            &mut r[..d],
        );
        last = chosen;
        slots[x as usize] = Some(answer_of(f, d, s.e, row, counts[d], &t, r));
    }
}
