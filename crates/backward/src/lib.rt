// The two backward solutions over the lines of the working table: the opening vector, and the vector that every line kills.

#![tactic(auto)]

ghost use Rattle.std.specs.Prelude.{◌≡◌, ℕ, ◌<◌, ◌≤◌, ◌%◌, ◌*◌, ◌+◌, ◌-◌, length, get_or};
ghost use Rattle.lines.specs.Line.{Low, Lows, at, col_sum};
ghost use Rattle.backward.specs.Solution.{Opened, Killed};

use residue::Modulus;

// p - x modulo p, without a division.
fn minus(m: Modulus, x: u32) -> u32
    requires { x < m.p }
    ensures { (result ≡ (m.p - x) % m.p) × (result < m.p) }
{
    if x == 0 {
        return 0;
    }
    m.p - x
}

// r is 0 everywhere but q at place k. A function of its own: written in place, these two lines took more proof.
fn begin(k: usize, q: u32, r: &mut [u32])
    requires { k < length r.old }
    ensures len { length r.new ≡ length r.old }
    ensures here { get_or r.new k 0 ≡ q }
    ensures zero { (i : ℕ) → (i ≡ k → ⊥) → get_or r.new i 0 ≡ 0 }
{
    r.fill(0);
    r[k] = q;
}

// The weight of line j in the goal that v gives, where a has those of the lines after it.
fn weight(m: Modulus, s: usize, j: usize, v: &[u32; 27], a: &[u32; 27], t: &[[u32; 27]; 12]) -> u32
    requires j_bound { (s ≤ 12) × (j < 12) }
    requires low { Low m.p a.now }
    requires lows { Lows m.p t.now }
    ensures { (result ≡ at t.now j 24
        * ((get_or v.now 24 0 * get_or v.now (12 + j) 0 % m.p
        + col_sum a.now t.now s (12 + j)) % m.p) % m.p) × (result < m.p) }
{
    let b = m.mul(v[24], v[12 + j]);
    let h = lines::col_dot(m, b, a, t, s, 12 + j);
    m.mul(t[j][24], h)
}

// The opening vector: the weights of the goal that the line v of row k gives, from the last line to the first.
pub fn opening(m: Modulus, s: usize, k: usize, v: &[u32; 27], t: &[[u32; 27]; 12], r: &mut [u32])
    requires lt_p { (1 < m.p) × (s ≤ 12) × (k < length r.old) × (k < 65536) }
    requires v_bound { get_or v.now 24 0 < m.p }
    requires lows { Lows m.p t.now }
    requires by_index { (j : ℕ) → j < s → at t.now j 26 < k }
    ensures { Opened m.p k s t.now v.now r.old r.new }
{
    begin(k, v[24], r);
    let mut a = [0u32; 27];
    for j in (0..s).rev() {
        let x = weight(m, s, j, v, &a, t);
        a[12 + j] = x;
        r[t[j][26] as usize] = x;
    }
}

// The vector that all lines kill, with 1 at the last place, from the last line to the first.
pub fn killing(m: Modulus, e: usize, s: usize, t: &[[u32; 27]; 12]) -> [u32; 27]
    requires lt_p { (1 < m.p) × (1 ≤ e) × (e ≤ 12) × (s ≤ 12) }
    requires lows { Lows m.p t.now }
    requires by_index { (j : ℕ) → j < s → at t.now j 25 < e - 1 }
    ensures small { ((i : ℕ) → get_or result i 0 < m.p) × (get_or result (e - 1) 0 ≡ 1) }
    ensures kills { Killed m.p s t.now (e - 1) 0 result }
{
    let mut y = [0u32; 27];
    y[e - 1] = 1;
    for j in (0..s).rev() {
        let x = lines::row_dot(m, &y, t, j, e);
        y[t[j][25] as usize] = minus(m, x);
    }
    y
}
