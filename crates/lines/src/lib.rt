// Lines of the working table. A table has 12 lines of 27 numbers: 0 to 11 the vector (columns 2, .., e, 1), 12 to 23 the factors with
// which the lines before it were taken off, negated, 24 the inverse that scaled it, 25 its pivot, 26 the number of its row.
// Sums of products are exact in 64 bits and are reduced once a place. Lines that are only read are lent, those that are made are handed on.

#![tactic(auto)]

ghost use Rattle.std.specs.Prelude.{◌≡◌, [], ℕ, ◌<◌, ◌≤◌, ◌%◌, ◌*◌, ◌+◌, ◌-◌, MatchOption, length, get_or};
ghost use Rattle.lines.specs.Line.{Low, Lows, Pivots, Stepped, PivotMarks, col_sum, row_sum};
ghost use Rattle.lines.specs.Line.{Factored, Cleared, Changed, Lined, Shaped};

use residue::{Modulus, PrimeModulus};

// x y, reduced where the modulus has more than 16 bits: below 2^32 either way, so that a sum of 13 of them fits 64 bits.
fn term(m: Modulus, x: u32, y: u32) -> u64
    requires { (m.p < 65536 → x < 65536) × (m.p < 65536 → y < 65536) }
    ensures { (result % m.p ≡ x * y % m.p) × (result < 4294967296) }
{
    let xy = (x as u64) * (y as u64);
    if m.p < 65536 {
        return xy;
    }
    xy % (m.p as u64)
}

// a and the first s factors of v times place i of the first s lines.
pub fn col_dot(m: Modulus, a: u32, v: &[u32; 27], t: &[[u32; 27]; 12], s: usize, i: usize) -> u32
    requires s_bound { (s ≤ 12) × (i < 24) }
    requires low { Low m.p v.now }
    requires lows { Lows m.p t.now }
    ensures { (result ≡ (a + col_sum v.now t.now s i) % m.p) × (result < m.p) }
{
    let mut acc = a as u64;
    for l in 0..s {
        acc += term(m, v[12 + l], t[l][i]);
    }
    m.reduce(acc)
}

// The first e places of v times those of line j.
pub fn row_dot(m: Modulus, v: &[u32; 27], t: &[[u32; 27]; 12], j: usize, e: usize) -> u32
    requires j_bound { (j < 12) × (e ≤ 12) }
    requires low { Low m.p v.now }
    requires lows { Lows m.p t.now }
    ensures { (result ≡ row_sum v.now t.now j e % m.p) × (result < m.p) }
{
    let mut acc: u64 = 0;
    for i in 0..e {
        acc += term(m, v[i], t[j][i]);
    }
    m.reduce(acc)
}

// v with the factors that clear the pivots of the first s lines, one after the other.
fn factors(m: Modulus, s: usize, mut v: [u32; 27], t: &[[u32; 27]; 12]) -> [u32; 27]
    requires s_bound { s ≤ 12 }
    requires low { Low m.p v }
    requires lows { Lows m.p t.now }
    requires pivots { Pivots t.now s }
    ensures { Factored m.p t.now v result s }
{
    for j in 0..s {
        let c = t[j][25] as usize;
        let x = col_dot(m, v[c], &v, t, j, c);
        v[12 + j] = m.p - x;
    }
    v
}

// Marks the places that are pivots of the first s lines.
fn pivot_marks(s: usize, t: &[[u32; 27]; 12]) -> [bool; 12]
    requires s_bound { s ≤ 12 }
    requires pivots { Pivots t.now s }
    ensures { PivotMarks t.now s result }
{
    let mut marks = [false; 12];
    for line in &t[..s] {
        marks[line[25] as usize] = true;
    }
    marks
}

// What the first s lines leave of v, by its factors. They leave nothing at their pivots, so no sum is made there.
fn rest(m: Modulus, s: usize, e: usize, v: [u32; 27], t: &[[u32; 27]; 12]) -> [u32; 27]
    requires s_bound { (s ≤ 12) × (e ≤ 12) }
    requires low { Low m.p v }
    requires lows { Lows m.p t.now }
    requires pivots { Pivots t.now s }
    requires cleared { Cleared m.p t.now v s }
    ensures { Changed m.p e (λ i. (get_or v i 0 + col_sum v t.now s i) % m.p) v result }
{
    let marks = pivot_marks(s, t);
    let mut x = v;
    for i in 0..e {
        x[i] = if marks[i] {
            0
        } else {
            col_dot(m, v[i], &v, t, s, i)
        };
    }
    x
}

// The first place below e that is not 0.
fn find(v: &[u32; 27], e: usize) -> Option<usize>
    requires { e ≤ 12 }
    ensures { MatchOption result ((k : ℕ) → k < e → get_or v.now k 0 ≡ 0)
        (λ c. (c < e) × ((k : ℕ) → k < c → get_or v.now k 0 ≡ 0) × (get_or v.now c 0 ≡ 0 → ⊥)) }
{
    v[..e].iter().position(|x| *x != 0)
}

// Multiplies the first e places by q.
fn scale(m: Modulus, e: usize, q: u32, v: &mut [u32; 27])
    requires e_bound { e ≤ 12 }
    requires low { Low m.p v.old }
    ensures { Changed m.p e (λ i. q * get_or v.old i 0 % m.p) v.old v.new }
{
    for x in v[..e].iter_mut() {
        *x = m.mul(q, *x);
    }
}

// The line's last three numbers: the inverse q, the pivot c, the row k.
pub fn marked(m: Modulus, mut v: [u32; 27], q: u32, c: usize, k: usize) -> [u32; 27]
    requires q_bound { (m.p < 65536 → q < 65536) × (c < 65536) × (k < 65536) }
    requires low { Low m.p v }
    ensures shape { (length result ≡ 27) × Low m.p result }
    ensures marks { (get_or result 24 0 ≡ q) × (get_or result 25 0 ≡ c) × (get_or result 26 0 ≡ k) }
    ensures same { (i : ℕ) → i < 24 → get_or result i 0 ≡ get_or v i 0 }
{
    v[24] = q;
    v[25] = c as u32;
    v[26] = k as u32;
    v
}

// Row k as a line: the first s lines taken off, and scaled so that its first place that is not 0 becomes 1.
pub fn line(
    f: PrimeModulus,
    e: usize,
    k: usize,
    s: usize,
    row: [u32; 27],
    t: &[[u32; 27]; 12],
) -> [u32; 27]
    requires e_bound { (e ≤ 12) × (k < 65536) × (s ≤ 12) }
    requires low { Low f.m.p row }
    requires lows { Lows f.m.p t.now }
    requires pivots { Pivots t.now s }
    requires stepped { Stepped f.m.p t.now s }
    ensures shape { Shaped f.m.p e result }
    ensures made { Lined f.m.p e k s t.now (λ i. get_or row i 0) result }
{
    let m = f.m;
    let g = factors(m, s, row, t);
    let mut x = rest(m, s, e, g, t);
    let Some(c) = find(&x, e) else {
        return marked(m, x, 0, e, k);
    };
    let q = m.inverse(x[c]);
    scale(m, e, q, &mut x);
    marked(m, x, q, c, k)
}
