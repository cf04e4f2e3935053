// A written rule built: the readers go through the text a second time and write rows and labels while they go.

#![tactic(auto)]

ghost use Rattle.std.specs.Prelude.{◌≡◌, ℕ, ◌+◌, ◌*◌, ◌-◌, ◌<◌, ◌≤◌, length, set};
ghost use Rattle.rules.specs.Construction.{less_all};
ghost use Rattle.builder.specs.Building.{vectors, number_value, ands_from, stand, out, Past, rule_built, term_built, atom_built};
ghost use Rattle.builder.specs.Left.{Left};

use reader::{Kind, atom, kind_at, number_end};
use residue::Modulus;

// Where the builder stands: the place in the text, the next row, the next column.
#[derive(Clone, Copy)]
pub struct Place {
    pub at: usize,
    pub row: usize,
    pub col: usize,
}

// The number at the place, of which d is the first digit.
#[tactic(auto, unfolding(crate::specs::Building::number_value))]
fn value_at(text: &[u8], d: u8, at: usize) -> u32
    requires { at < length text.now }
    ensures { result ≡ number_value text.now d at }
{
    match kind_at(text, at + 1) {
        Kind::Zero => 10,
        Kind::Digit(e) => 10 + u32::from(e),
        _ => u32::from(d),
    }
}

// A store, where there is the place.
fn put<T: Copy>(a: &mut [T], i: usize, x: T)
    ensures { a.new ≡ set a.old i x }
{
    if i < a.len() {
        a[i] = x;
    }
}

// 1 in column c, 0 elsewhere.
#[tactic(auto, unfolding(rules::specs::Construction::modulo))]
fn unit(c: usize) -> [u32; 12]
    ensures { (p : ℕ) → result ≡ (vectors p).unit c }
{
    let mut v = [0; 12];
    put(&mut v, c, 1);
    v
}

// 1 taken off at column c, modulo p.
#[tactic(auto, unfolding(rules::specs::Construction::modulo))]
fn less(v: &mut [u32; 12], c: usize, p: u32)
    requires { 1 ≤ p }
    ensures { v.new ≡ (vectors p).less c v.old }
{
    if c < 12 {
        v[c] = Modulus::new(p).add(v[c], p - 1);
    }
}

// The vector of a term's last atom: 1 taken off at each of the m columns from base on.
fn last(mut v: [u32; 12], base: usize, m: usize, p: u32) -> [u32; 12]
    requires { (1 ≤ p) × (base + m ≤ 300) }
    ensures { result ≡ less_all (vectors p) base m v }
{
    for c in base..base + m {
        less(&mut v, c, p);
    }
    v
}

// How many signs & join the atoms of the term at the place: the columns that the term takes for itself.
fn ands(text: &[u8], depth: usize, at: usize) -> usize
    ensures by_index { (n : ℕ) → 3 * (length text.now - at) + 1 < n → result ≡ ands_from n text.now depth at }
    ensures upper_bound { result ≤ length text.now - at }
{
    let Some(q) = atom(text, depth, at) else {
        return 0;
    };
    match kind_at(text, q) {
        Kind::And => ands(text, depth, q + 1) + 1,
        _ => 0,
    }
}

// A rule passes its vector v to every term. The three builders call each other as the readers do, and the same number falls.
#[cycle(build_atom_build_rule_build_term)]
fn build_rule(
    text: &[u8],
    depth: usize,
    p: u32,
    v: [u32; 12],
    ents: &mut [[u32; 12]],
    labs: &mut [u32],
    st: Place,
) -> Option<Place>
    requires { 1 ≤ p }
    ensures by_index { (n : ℕ) → 3 * (length text.now - st.at) + 2 < n → out ents.new labs.new result ≡ rule_built n text.now p depth v (stand ents.old labs.old st) }
    ensures past { Past st.at result }
{
    let r = build_term(text, depth, p, v, ents, labs, st)?;
    match kind_at(text, r.at) {
        Kind::Or => {
            let next = Place { at: r.at + 1, ..r };
            build_rule(text, depth, p, v, ents, labs, next)
        }
        _ => Some(r),
    }
}

// A term takes its columns before anything inside it is looked at. A column past 12 or a 257th sign does not occur in a rule that is not
// too large.
#[cycle(build_atom_build_rule_build_term)]
fn build_term(
    text: &[u8],
    depth: usize,
    p: u32,
    v: [u32; 12],
    ents: &mut [[u32; 12]],
    labs: &mut [u32],
    st: Place,
) -> Option<Place>
    requires { 1 ≤ p }
    ensures by_index { (n : ℕ) → 3 * (length text.now - st.at) + 1 < n → out ents.new labs.new result ≡ term_built n text.now p depth v (stand ents.old labs.old st) }
    ensures past { Past st.at result }
{
    let m = ands(text, depth, st.at);
    if st.col > 12 || m > 256 {
        return None;
    }
    let w = last(v, st.col, m, p);
    let mut here = Place {
        col: st.col + m,
        ..st
    };
    for i in 0..m {
        let u = unit(st.col + i);
        let r = build_atom(text, depth, p, u, ents, labs, here)?;
        match kind_at(text, r.at) {
            Kind::And => here = Place { at: r.at + 1, ..r },
            _ => return None,
        }
    }
    build_atom(text, depth, p, w, ents, labs, here)
}

// A number becomes one row; a rule in parentheses gets the atom's vector.
#[cycle(build_atom_build_rule_build_term)]
fn build_atom(
    text: &[u8],
    depth: usize,
    p: u32,
    v: [u32; 12],
    ents: &mut [[u32; 12]],
    labs: &mut [u32],
    st: Place,
) -> Option<Place>
    requires { 1 ≤ p }
    ensures by_index { (n : ℕ) → 3 * (length text.now - st.at) < n → out ents.new labs.new result ≡ atom_built n text.now p depth v (stand ents.old labs.old st) }
    ensures past { Past st.at result }
{
    match kind_at(text, st.at) {
        Kind::Digit(d) => {
            put(labs, st.row, value_at(text, d, st.at));
            put(ents, st.row, v);
            let q = number_end(text, d, st.at)?;
            if st.row < 32 {
                Some(Place {
                    at: q,
                    row: st.row + 1,
                    ..st
                })
            } else {
                None
            }
        }
        Kind::Open => {
            let inside = depth.checked_sub(1)?;
            let next = Place {
                at: st.at + 1,
                ..st
            };
            let r = build_rule(text, inside, p, v, ents, labs, next)?;
            match kind_at(text, r.at) {
                Kind::Close => Some(Place { at: r.at + 1, ..r }),
                _ => None,
            }
        }
        _ => None,
    }
}

// The rows and labels of the whole text, if it is a rule that needs at most 32 rows and 12 columns.
pub fn make(p: u32, text: &[u8], ents: &mut [[u32; 12]], labs: &mut [u32]) -> Option<Place>
    requires { 1 ≤ p }
    ensures { Left p text.now ents.old labs.old result ents.new labs.new }
{
    let st = Place {
        at: 0,
        row: 0,
        col: 1,
    };
    build_rule(text, 8, p, unit(0), ents, labs, st)
}
