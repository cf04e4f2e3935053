// Tables of numbers of any size, row after row in lent lists: a table turned, and the question of all its rows: is the target
// (1, 0, .., 0) a combination of them?

#![tactic(auto)]

ghost use Rattle.std.specs.Prelude.{◌≡◌, ◌∷◌, ℕ, ◌<◌, ◌≤◌, ◌+◌, ◌-◌, ◌*◌, length, take};
ghost use Rattle.residue.specs.Prime.{Prime};
ghost use Rattle.linear.specs.Flat.{place, entry};
ghost use Rattle.linear.specs.Rows.{Open, OpeningVector, Handed};
ghost use Rattle.linear.specs.Product.{every};
ghost use Rattle.tables.specs.Turned.{Turned};
ghost use Rattle.tables.specs.Steps.{Negated, Aimed, OthersGive, Closing};

// Column j of the table, as row j of `a`; the rows of `a` before it stay.
fn column(d: usize, e: usize, j: usize, table: &[u32], a: &mut [u32])
    requires { (j < e) × (length table.now ≡ d * e) × (length a.old ≡ e * d) }
    ensures same { length a.new ≡ length a.old }
    ensures here { (k : ℕ) → k < d → entry d a.new j k ≡ entry e table.now k j }
    ensures before { (i : ℕ) → i < j * d → place a.new i ≡ place a.old i }
{
    let at = j * d;
    for (k, x) in a[at..at + d].iter_mut().enumerate() {
        *x = table[k * e + j];
    }
}

// The columns of a table of d rows of e numbers become the rows of `a`.
pub fn turn(d: usize, e: usize, table: &[u32], a: &mut [u32])
    requires { (length table.now ≡ d * e) × (length a.old ≡ e * d) }
    ensures same { length a.new ≡ length a.old }
    ensures turned { Turned d e table.now a.new }
{
    for j in 0..e {
        column(d, e, j, table, a);
    }
}

// Makes the first n numbers their negatives modulo p; the others stay.
fn negate(p: u32, n: usize, x: &mut [u32])
    requires { (0 < p) × (n ≤ length x.old) }
    ensures { Negated p n x.old x.new }
{
    for y in x[..n].iter_mut() {
        *y = p - *y % p;
    }
}

// Makes `x` the target: 1 first and 0 after.
fn aim(n: usize, x: &mut [u32])
    requires { (1 ≤ n) × (length x.old ≡ n) }
    ensures { Aimed n x.new }
{
    x.fill(0);
    x[0] = 1;
}

// Makes `z` 1 followed by `c`.
fn one_before(c: &[u32], z: &mut [u32])
    requires { length z.old ≡ 1 + length c.now }
    ensures { z.new ≡ 1 ∷ c.now }
{
    z[0] = 1;
    z[1..].copy_from_slice(c);
}

// Whether the first of e rows of d numbers is a combination of the others; where it is, `c` begins with its coefficients.
// `duals`, `t`, `u` and the last place of `c` are working space. What it shares with `weigh` is the cutting of lists alone: one function for
// both would be longer than the two.
fn others_give(
    p: u32,
    d: usize,
    e: usize,
    rows: &[u32],
    duals: &mut [u32],
    t: &mut [u32],
    u: &mut [u32],
    c: &mut [u32],
) -> bool
    requires prime { Prime p }
    requires le_e { (1 ≤ e) × (length rows.now ≡ e * d) × (length duals.old ≡ e * d) × (d ≤ length t.old) × (d ≤ length u.old)
        × (length c.old ≡ e) }
    ensures answer { OthersGive p d e rows.now result (take (e - 1) c.new) }
    ensures sizes { (length duals.new ≡ length duals.old) × (length t.new ≡ length t.old)
        × (length u.new ≡ length u.old) × (length c.new ≡ length c.old) }
{
    let m = e - 1;
    combination::find(
        p,
        m,
        d,
        &rows[d..],
        &rows[..d],
        duals,
        &mut t[..d],
        &mut u[..d],
        &mut c[..m],
    )
}

// Whether the rows are closed: whether the first column, negated, is a combination of the others. Where it is, `c` begins with what
// follows the 1 of the witness. `columns`, `duals`, `t` and `u` are working space.
fn closes(
    p: u32,
    d: usize,
    e: usize,
    table: &[u32],
    columns: &mut [u32],
    duals: &mut [u32],
    t: &mut [u32],
    u: &mut [u32],
    c: &mut [u32],
) -> bool
    requires prime { Prime p }
    requires le_e { (1 ≤ e) × (length table.now ≡ d * e) × (length columns.old ≡ e * d) × (length duals.old ≡ e * d)
        × (d ≤ length t.old) × (d ≤ length u.old) × (length c.old ≡ e) }
    ensures answer { Closing p d e table.now result (take (e - 1) c.new) }
    ensures sizes { (length columns.new ≡ length columns.old)
        × (length duals.new ≡ length duals.old) × (length t.new ≡ length t.old)
        × (length u.new ≡ length u.old) × (length c.new ≡ length c.old) }
{
    turn(d, e, table, columns);
    negate(p, d, columns);
    others_give(p, d, e, columns, duals, t, u, c)
}

// Makes `r` the opening vector of rows that are open. `goal`, `duals`, `t` and `u` are working space.
fn weigh(
    p: u32,
    d: usize,
    e: usize,
    table: &[u32],
    goal: &mut [u32],
    duals: &mut [u32],
    t: &mut [u32],
    u: &mut [u32],
    r: &mut [u32],
)
    requires prime { Prime p }
    requires le_e { (1 ≤ e) × (length table.now ≡ d * e) × (length goal.old ≡ e) × (length duals.old ≡ e * d)
        × (e ≤ length t.old) × (e ≤ length u.old) × (length r.old ≡ d) }
    requires fact { Open p d e (entry e table.now) every }
    ensures answer { OpeningVector p d e (entry e table.now) every (place r.new) }
    ensures sizes { (length goal.new ≡ length goal.old)
        × (length duals.new ≡ length duals.old) × (length t.new ≡ length t.old)
        × (length u.new ≡ length u.old) × (length r.new ≡ length r.old) }
{
    aim(e, goal);
    combination::find(p, d, e, table, goal, duals, &mut t[..e], &mut u[..e], r);
}

// Whether the rows of a table of d rows of e numbers are open: then `r` becomes the vector; else `z` becomes the witness, and the other
// list stays. The other lists are working space. Wrong answers that the contract rules out: `true` for rows of which the target is no
// combination; a weight at a row that is a combination of those kept before it; a witness that some row does not kill.
pub fn ask(
    p: u32,
    d: usize,
    e: usize,
    table: &[u32],
    columns: &mut [u32],
    duals: &mut [u32],
    t: &mut [u32],
    u: &mut [u32],
    c: &mut [u32],
    r: &mut [u32],
    z: &mut [u32],
) -> bool
    requires prime { Prime p }
    requires le_e { (1 ≤ e) × (length table.now ≡ d * e) × (length columns.old ≡ e * d) × (length duals.old ≡ e * d)
        × (d ≤ length t.old) × (e ≤ length t.old) × (d ≤ length u.old) × (e ≤ length u.old) × (length c.old ≡ e)
        × (length r.old ≡ d) × (length z.old ≡ e) }
    ensures answer { Handed p d e (entry e table.now) every r.old z.old result r.new
        z.new }
    ensures sizes { (length columns.new ≡ length columns.old)
        × (length duals.new ≡ length duals.old) × (length t.new ≡ length t.old)
        × (length u.new ≡ length u.old) × (length c.new ≡ length c.old) }
{
    if closes(p, d, e, table, columns, duals, t, u, c) {
        one_before(&c[..e - 1], z);
        return false;
    }
    weigh(p, d, e, table, c, duals, t, u, r);
    true
}
