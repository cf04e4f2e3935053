// The one question in general: is a target a combination modulo a prime of any number of vectors of any length, and with which
// coefficients? `find` answers it; the functions before it are its steps.
//
// Each vector gets a functional, its dual: 1 on the vector and 0 on those before it, or 0 everywhere where the vector is a combination
// of those before it and so is not kept. With the duals at hand a target is answered by taking the vectors off it from the last to the
// first, each as often as its dual says: what is left is 0 exactly where the target is a combination.

#![tactic(auto)]

ghost use Rattle.std.specs.Prelude.{◌≡◌, ◌<◌, ◌≤◌, ◌*◌, ◌+◌, ◌%◌, length};
ghost use Rattle.residue.specs.Prime.{Prime};
ghost use Rattle.linear.specs.Combination.{total};
ghost use Rattle.linear.specs.Flat.{place};
ghost use Rattle.combination.specs.Found.{Found};
ghost use Rattle.combination.specs.Steps.{TakenOff, Cancelled, FirstNonzero};
ghost use Rattle.combination.specs.Steps.{DualsOf, Downed, Raised, Seeded, Separated, Made};

use residue::{Modulus, PrimeModulus};

// `a` times `x`, place by place, added up modulo p.
pub fn dot(modulus: Modulus, a: &[u32], x: &[u32]) -> u32
    requires { length a.now ≡ length x.now }
    ensures { (result ≡ total (length x.now) (λ i. place a.now i * place x.now i) % modulus.p) × (result < modulus.p) }
{
    let mut sum = 0;
    for (y, z) in a.iter().zip(x) {
        sum = modulus.mul_add(sum, *y, *z);
    }
    sum
}

// Takes f times vector k of `b` off `x`, modulo p.
fn take_off(modulus: Modulus, k: usize, n: usize, f: u32, b: &[u32], x: &mut [u32])
    requires { (f < modulus.p) × (k * n + n ≤ length b.now) × (length x.old ≡ n) }
    ensures { TakenOff modulus.p k n f b.now x.old x.new }
{
    let at = k * n;
    let g = modulus.p - f;
    for (i, y) in x.iter_mut().enumerate() {
        *y = modulus.mul_add(*y, g, b[at + i]);
    }
}

// Takes vector k of `b` off `x` as often as vector k of `a` says, so that vector k of `a` becomes 0 at `x` where it is 1 on that of `b`.
// Answers how often. Mostly that is 0, and then nothing is to be taken off.
fn cancel(modulus: Modulus, k: usize, n: usize, a: &[u32], b: &[u32], x: &mut [u32]) -> u32
    requires { (k * n + n ≤ length a.now) × (k * n + n ≤ length b.now) × (length x.old ≡ n) }
    ensures { Cancelled modulus.p k n a.now b.now x.old x.new result }
{
    let at = k * n;
    let f = dot(modulus, &a[at..at + n], x);
    if f == 0 {
        return 0;
    }
    take_off(modulus, k, n, f, b, x);
    f
}

// The first place of `x` that is not 0 modulo p.
fn first_nonzero(modulus: Modulus, n: usize, x: &[u32]) -> Option<usize>
    requires { length x.now ≡ n }
    ensures { FirstNonzero modulus.p n x.now result }
{
    x.iter().position(|y| *y % modulus.p != 0)
}

// Takes the first m vectors off `t`, from the last to the first, each as often as its dual says; `c` gets how often. A dual is 0 on the
// vectors before its own, so it stays 0 at `t` once its vector is taken off.
fn down(
    modulus: Modulus,
    m: usize,
    n: usize,
    vectors: &[u32],
    duals: &[u32],
    t: &mut [u32],
    c: &mut [u32],
)
    requires n_in_bounds { (m * n ≤ length vectors.now) × (m * n ≤ length duals.now) × (length t.old ≡ n) × (m ≤ length c.old) }
    requires duals_of { DualsOf modulus.p m n vectors.now duals.now }
    ensures { Downed modulus.p m n vectors.now duals.now t.old c.old
        t.new c.new 0 }
{
    for k in (0..m).rev() {
        let f = cancel(modulus, k, n, duals, vectors, t);
        c[k] = f;
    }
}

// Makes the functional `u` 0 at each of the first m vectors, from the first to the last, by taking duals off it. At a vector that all
// duals make 0, as what `down` leaves, `u` says what it said.
fn up(modulus: Modulus, m: usize, n: usize, vectors: &[u32], duals: &[u32], u: &mut [u32])
    requires n_in_bounds { (m * n ≤ length vectors.now) × (m * n ≤ length duals.now) × (length u.old ≡ n) }
    requires duals_of { DualsOf modulus.p m n vectors.now duals.now }
    ensures { Raised modulus.p m n vectors.now duals.now u.old u.new m }
{
    for k in 0..m {
        cancel(modulus, k, n, vectors, duals, u);
    }
}

// Makes `u` a functional of one place that is 1 at `t`. Where `t` is 0 there is none: then `u` is 0 and the answer false.
fn seed(field: PrimeModulus, n: usize, t: &[u32], u: &mut [u32]) -> bool
    requires { (length t.now ≡ n) × (length u.old ≡ n) }
    ensures { Seeded field.m.p n t.now u.new result }
{
    u.fill(0);
    let Some(i) = first_nonzero(field.m, n, t) else {
        return false;
    };
    u[i] = field.m.inverse(t[i]);
    true
}

// Makes `u` a functional that is 1 at `t` and 0 at the first m vectors, where `t` is what `down` leaves; 0 where `t` is 0.
fn separate(
    field: PrimeModulus,
    m: usize,
    n: usize,
    vectors: &[u32],
    duals: &[u32],
    t: &[u32],
    u: &mut [u32],
)
    requires n_in_bounds { (m * n ≤ length vectors.now) × (m * n ≤ length duals.now) × (length t.now ≡ n) × (length u.old ≡ n) }
    requires duals_of { DualsOf field.m.p m n vectors.now duals.now }
    ensures { Separated field.m.p m n vectors.now duals.now t.now u.new }
{
    if seed(field, n, t, u) {
        up(field.m, m, n, vectors, duals, u);
    }
}

// Copies a list. Written out: of two lists that are both lent the library's `copy_from_slice` asks for memmove, which nothing else in the archive
// for C needs.
#[tactic(auto, using(crate::proofs::Steps::copied))]
fn copy(from: &[u32], to: &mut [u32])
    requires { length from.now ≡ length to.old }
    ensures { to.new ≡ from.now }
{
    for (i, x) in to.iter_mut().enumerate() {
        *x = from[i];
    }
}

// Makes dual k from those before it: vector k is the target, and what is left of it is separated from the vectors before it.
// `t`, `u` and `c` are working space.
fn make_dual(
    field: PrimeModulus,
    k: usize,
    n: usize,
    vectors: &[u32],
    duals: &mut [u32],
    t: &mut [u32],
    u: &mut [u32],
    c: &mut [u32],
)
    requires n_in_bounds { (k * n + n ≤ length vectors.now) × (k * n + n ≤ length duals.old) × (length t.old ≡ n)
        × (length u.old ≡ n) × (k ≤ length c.old) }
    requires duals_of { DualsOf field.m.p k n vectors.now duals.old }
    ensures { Made field.m.p (k + 1) n vectors.now duals.new duals.old c.old
        t.new u.new c.new }
{
    let at = k * n;
    copy(&vectors[at..at + n], t);
    down(field.m, k, n, vectors, duals, t, c);
    separate(field, k, n, vectors, duals, t, u);
    copy(u, &mut duals[at..at + n]);
}

// Makes the duals of the first m vectors.
fn make_duals(
    field: PrimeModulus,
    m: usize,
    n: usize,
    vectors: &[u32],
    duals: &mut [u32],
    t: &mut [u32],
    u: &mut [u32],
    c: &mut [u32],
)
    requires { (m * n ≤ length vectors.now) × (m * n ≤ length duals.old) × (length t.old ≡ n)
        × (length u.old ≡ n) × (m ≤ length c.old) }
    ensures { Made field.m.p m n vectors.now duals.new duals.old c.old
        t.new u.new c.new }
{
    for k in 0..m {
        make_dual(field, k, n, vectors, duals, t, u, c);
    }
}

// Whether `target` is a combination of the first m vectors; where it is, `c` becomes its coefficients.
// `duals`, `t` and `u` are working space, and so is `c` where the answer is no. Wrong answers that the contract rules out: `true` with
// coefficients at a vector that is not kept; `false` for a target that some weights give.
pub fn find(
    p: u32,
    m: usize,
    n: usize,
    vectors: &[u32],
    target: &[u32],
    duals: &mut [u32],
    t: &mut [u32],
    u: &mut [u32],
    c: &mut [u32],
) -> bool
    requires prime { Prime p }
    requires target_len { (length target.now ≡ n) × (m * n ≤ length vectors.now) × (m * n ≤ length duals.old) × (length t.old ≡ n)
        × (length u.old ≡ n) × (length c.old ≡ m) }
    ensures answer { Found p m n vectors.now target.now result c.new }
    ensures sizes { (length duals.new ≡ length duals.old) × (length t.new ≡ length t.old)
        × (length u.new ≡ length u.old) × (length c.new ≡ length c.old) }
{
    let field = PrimeModulus::new(p);
    make_duals(field, m, n, vectors, duals, t, u, c);
    copy(target, t);
    down(field.m, m, n, vectors, duals, t, c);
    first_nonzero(field.m, n, t).is_none()
}
