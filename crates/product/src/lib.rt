// The product verdict: can the product of two codes be had from the products of their shares? With the vector r or the witness w.

#![tactic(auto)]

ghost use Rattle.std.specs.Prelude.{◌≡◌, ◌&&◌, ◌<◌, ◌≤◌, ◌+◌, ◌-◌, ◌*◌, eqb, length, IfOk};
ghost use Rattle.linear.specs.Flat.{entry};
ghost use Rattle.linear.specs.Product.{pairs, product_rows_lem, every};
ghost use Rattle.linear.specs.Rows.{Handed};
ghost use Rattle.scheme.specs.Tests.{refused};
ghost use Rattle.scheme.specs.Checked.{IsOf};
ghost use Rattle.scheme.specs.Refusal.{product_refusal_lem};
ghost use Rattle.product.specs.Says.{ProductSays};
ghost use Rattle.product.specs.Steps.{Multiples, RowOfProducts, RowsOfProducts};

use residue::Modulus;
use scheme::{Checked, Refusal, Scheme, Shape};

// Yes with r, or no with w.
#[derive(Clone, Copy, Debug, PartialEq, Eq)]
pub enum Verdict {
    Yes,
    No,
}

// The number of pairs j up to k of the columns.
fn pairs_of(e: usize) -> usize
    requires { e ≤ 12 }
    ensures { result ≡ pairs e }
{
    e * (e + 1) / 2
}

// Whether the lists for r and w have their lengths. Where e is above 12 the call is refused before any length counts.
fn places_fit(s: Shape, rplaces: usize, wplaces: usize) -> bool
    ensures { s.e ≤ 12 → result ≡ (eqb rplaces s.d && eqb wplaces (pairs s.e)) }
{
    s.e <= 12 && rplaces == s.d && wplaces == pairs_of(s.e)
}

// The scheme, where nothing is refused.
fn admitted<'a>(scheme: Scheme<'a>, rplaces: usize, wplaces: usize) -> Result<Checked<'a>, Refusal>
    ensures refusal { refused result ≡ product_refusal_lem scheme.entry.shape scheme.entry.labels.now scheme.entry.entries.now rplaces wplaces }
    ensures same { IfOk result (IsOf scheme.entry.shape scheme.entry.labels.now scheme.entry.entries.now) }
    ensures places { IfOk result (λ c. (rplaces ≡ c.shape.d) × (wplaces ≡ pairs c.shape.e)) }
{
    scheme.checked(places_fit(scheme.shape, rplaces, wplaces))
}

// Number j of row k times itself and times each number after it, from place `at` on.
fn multiples(scheme: Checked<'_>, k: usize, j: usize, at: usize, a: &mut [u32])
    requires { (k * scheme.shape.e + scheme.shape.e ≤ length scheme.entries.now) × (j < scheme.shape.e) × (at + (scheme.shape.e - j) ≤ length a.old) }
    ensures { Multiples scheme.entry.shape.p scheme.entry.shape.e k j at scheme.entry.entries.now a.old a.new }
{
    let Shape { p, e, .. } = scheme.shape;
    let m = Modulus::new(p);
    let row = k * e;
    let from = &scheme.entries[row + j..row + e];
    let x = from[0];
    for (i, y) in from.iter().enumerate() {
        a[at + i] = m.mul(x, *y);
    }
}

// The product row of row k, from place `at` on: 1-1, 1-2, .., 1-e, 2-2, and so on.
fn product_row(scheme: Checked<'_>, k: usize, at: usize, a: &mut [u32])
    requires { (k < scheme.shape.d) × (at + pairs scheme.shape.e ≤ length a.old) }
    ensures { RowOfProducts scheme.entry.shape.p scheme.entry.shape.e k at scheme.entry.entries.now a.old a.new }
{
    let e = scheme.shape.e;
    let mut b = at;
    for j in 0..e {
        multiples(scheme, k, j, b, a);
        b += e - j;
    }
}

// The product rows of all rows, one after another.
fn product_rows(scheme: Checked<'_>, q: usize, a: &mut [u32])
    requires { (q ≡ pairs scheme.shape.e) × (length a.old ≡ scheme.shape.d * q) }
    ensures { RowsOfProducts scheme.entry.shape.p scheme.entry.shape.d scheme.entry.shape.e scheme.entry.entries.now a.old a.new }
{
    for k in 0..scheme.shape.d {
        product_row(scheme, k, k * q, a);
    }
}

// The question of the product rows, of which there are at most 32, of 78 products.
#[tactic(auto, using(crate::proofs::Says::table_answers))]
fn product_of(scheme: Checked<'_>, r: &mut [u32], w: &mut [u32]) -> bool
    requires { (length r.old ≡ scheme.shape.d) × (length w.old ≡ pairs scheme.shape.e) }
    ensures { Handed scheme.entry.shape.p scheme.entry.shape.d (pairs scheme.entry.shape.e)
        (product_rows_lem scheme.entry.shape.p scheme.entry.shape.e (entry scheme.entry.shape.e scheme.entry.entries.now)) every r.old w.old result
        r.new w.new }
{
    let Shape { p, d, e, .. } = scheme.shape;
    let q = pairs_of(e);
    let n = d * q;
    let table = &mut [0u32; 2496][..n];
    let columns = &mut [0u32; 2496][..n];
    let duals = &mut [0u32; 2496][..n];
    let t = &mut [0u32; 78];
    let u = &mut [0u32; 78];
    let c = &mut [0u32; 78][..q];
    product_rows(scheme, q, table);
    tables::ask(p, d, q, table, columns, duals, t, u, c, r, w)
}

// Is there an r such that, for any two dealings, r times the products of their shares adds up to the product of the secrets, modulo p? Wrong
// answers that the contract rules out: a yes that looks at the squares of the entries alone and forgets the cross terms; a no with a w that some product
// row does not kill.
#[tactic(auto, using(crate::proofs::Says::says_refused, crate::proofs::Says::says_yes, crate::proofs::Says::says_no))]
pub fn product(scheme: Scheme<'_>, r: &mut [u32], w: &mut [u32]) -> Result<Verdict, Refusal>
    ensures { ProductSays scheme.entry.shape scheme.entry.labels.now scheme.entry.entries.now r.old w.old result r.new
        w.new }
{
    let checked = admitted(scheme, r.len(), w.len())?;
    if product_of(checked, r, w) {
        return Ok(Verdict::Yes);
    }
    Ok(Verdict::No)
}
