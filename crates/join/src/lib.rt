// Joining: from a set's shares the code, where the set is open and some dealing gives the shares.

#![tactic(auto)]

ghost use Rattle.std.specs.Prelude.{◌≡◌, cond, ◌<◌, ◌≤◌, length, IfOk};
ghost use Rattle.linear.specs.Bits.{bit};
ghost use Rattle.scheme.specs.Tests.{refused};
ghost use Rattle.scheme.specs.Checked.{IsOf};
ghost use Rattle.scheme.specs.Refusal.{join_refusal_lem};
ghost use Rattle.join.specs.Says.{JoinSays};
ghost use Rattle.join.specs.Steps.{MaskedTo, FitsSays, RowsSay};

use residue::Modulus;
use scheme::{Checked, Refusal, Scheme, Shape};

// The scheme, where refusals 1 to 9 are not given.
#[tactic(auto, using(scheme::proofs::Refusals::refusal_more))]
fn admitted<'a>(scheme: Scheme<'a>, set: u32, shares: &[u32]) -> Result<Checked<'a>, Refusal>
    ensures refusal { refused result ≡ join_refusal_lem scheme.entry.shape scheme.entry.labels.now scheme.entry.entries.now set shares.now }
    ensures same { IfOk result (IsOf scheme.entry.shape scheme.entry.labels.now scheme.entry.entries.now) }
    ensures lengths { IfOk result (λ c. length shares.now ≡ c.shape.d) }
{
    let s = scheme.shape;
    let checked = scheme.checked(shares.len() == s.d)?;
    sets::set_refusal(s.n, set)?;
    if !sets::read_below(s.p, set, checked.labels, shares) {
        return Err(Refusal::NotBelowP);
    }
    Ok(checked)
}

// x where row k is chosen, else 0.
fn where_chosen(chosen: u32, k: usize, x: u32) -> u32
    requires { k < 32 }
    ensures { result ≡ cond (bit chosen k) x 0 }
{
    if (chosen >> k) % 2 == 1 {
        return x;
    }
    0
}

// The list's numbers at the chosen rows, and 0 at the others: place i is of row i % d, in the shares and in column after column.
fn mask(d: usize, chosen: u32, list: &[u32], x: &mut [u32])
    requires { (0 < d) × (d ≤ 32) × (length x.old ≡ length list.now) }
    ensures { MaskedTo d (bit chosen) list.now x.new }
{
    for (i, y) in x.iter_mut().enumerate() {
        *y = where_chosen(chosen, i % d, list[i]);
    }
}

// Whether some list b gives the shares at the chosen rows: the one question for the columns, with the shares as target. `duals` first holds
// the columns over all rows.
fn fits(scheme: Checked<'_>, chosen: u32, shares: &[u32]) -> bool
    requires { length shares.now ≡ scheme.shape.d }
    ensures { FitsSays scheme.entry.shape.p scheme.entry.shape.d scheme.entry.shape.e chosen scheme.entry.entries.now shares.now result }
{
    let Shape { p, d, e, .. } = scheme.shape;
    let n = e * d;
    let columns = &mut [0u32; 384][..n];
    let goal = &mut [0u32; 32][..d];
    let duals = &mut [0u32; 384][..n];
    let t = &mut [0u32; 32][..d];
    let u = &mut [0u32; 32][..d];
    let c = &mut [0u32; 32][..e];
    tables::turn(d, e, scheme.entries, duals);
    mask(d, chosen, duals, columns);
    mask(d, chosen, shares, goal);
    combination::find(p, e, d, columns, goal, duals, t, u, c)
}

// Joins the shares at the chosen rows.
#[tactic(auto, using(crate::proofs::Says::rows_closed, crate::proofs::Says::rows_wrong, crate::proofs::Says::rows_code, crate::proofs::Says::opens_length))]
fn join_rows(scheme: Checked<'_>, chosen: u32, shares: &[u32]) -> Result<u32, Refusal>
    requires { length shares.now ≡ scheme.shape.d }
    ensures { RowsSay scheme.entry.shape.p scheme.entry.shape.d scheme.entry.shape.e chosen scheme.entry.entries.now shares.now result }
{
    let Shape { p, d, e, .. } = scheme.shape;
    let r = &mut [0u32; 32][..d];
    let z = &mut [0u32; 32][..e];
    let a = rows::ask(p, d, e, chosen, scheme.entries, r, z);
    if !a.opens {
        return Err(Refusal::SetClosed);
    }
    if !fits(scheme, chosen, shares) {
        return Err(Refusal::NoDealing);
    }
    Ok(combination::dot(Modulus::new(p), r, shares))
}

// Joins a set's shares. Wrong answers that the contract rules out: a number for shares that no dealing gives; 12 for a closed set; a sum
// that takes in a share outside the set's rows.
#[tactic(auto, using(crate::proofs::Says::says_refused, crate::proofs::Says::says))]
pub fn join(scheme: Scheme<'_>, set: u32, shares: &[u32]) -> Result<u32, Refusal>
    ensures { JoinSays scheme.entry.shape scheme.entry.labels.now scheme.entry.entries.now set shares.now result }
{
    let checked = admitted(scheme, set, shares)?;
    let chosen = sets::chosen_rows(set, checked.labels);
    join_rows(checked, chosen, shares)
}
