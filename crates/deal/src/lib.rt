// Dealing: from a secret and e - 1 random numbers the share of each row.

#![tactic(auto)]

ghost use Rattle.std.specs.Prelude.{◌≡◌, ◌∷◌, ◌<◌, ◌+◌, length, IfOk};
ghost use Rattle.linear.specs.Flat.{place};
ghost use Rattle.scheme.specs.Dealing.{share_of, shares_of};
ghost use Rattle.scheme.specs.Tests.{refused};
ghost use Rattle.scheme.specs.Checked.{IsOf};
ghost use Rattle.scheme.specs.Refusal.{deal_refusal_lem};
ghost use Rattle.deal.specs.Says.{DealSays};

use residue::Modulus;
use scheme::{Checked, Refusal, Scheme};

// Row k times the list of the secret and the random numbers, modulo p.
fn share(scheme: Checked<'_>, k: usize, secret: u32, randoms: &[u32]) -> u32
    requires { (k < scheme.shape.d) × (length randoms.now + 1 ≡ scheme.shape.e) }
    ensures { result ≡ share_of scheme.entry.shape scheme.entry.entries.now (place (secret ∷ randoms.now)) k }
{
    let s = scheme.shape;
    let m = Modulus::new(s.p);
    let at = k * s.e;
    let mut acc = m.mul(scheme.entries[at], secret);
    for (x, y) in scheme.entries[at + 1..at + s.e].iter().zip(randoms) {
        acc = m.mul_add(acc, *x, *y);
    }
    acc
}

// The shares of a dealing, one a row.
#[tactic(auto, using(linear::proofs::Flat::filled_list), unfolding(scheme::specs::Dealing::shares_of))]
fn fill(scheme: Checked<'_>, secret: u32, randoms: &[u32], shares: &mut [u32])
    requires { (length randoms.now + 1 ≡ scheme.shape.e) × (length shares.old ≡ scheme.shape.d) }
    ensures { shares.new ≡ shares_of scheme.entry.shape scheme.entry.entries.now secret randoms.now }
{
    for (k, x) in shares.iter_mut().enumerate() {
        *x = share(scheme, k, secret, randoms);
    }
}

// The scheme, where nothing is refused.
#[tactic(auto, using(scheme::proofs::Refusals::refusal_more))]
fn admitted<'a>(
    scheme: Scheme<'a>,
    secret: u32,
    randoms: &[u32],
    places: usize,
) -> Result<Checked<'a>, Refusal>
    ensures refusal { refused result ≡ deal_refusal_lem scheme.entry.shape scheme.entry.labels.now scheme.entry.entries.now secret randoms.now places }
    ensures same { IfOk result (IsOf scheme.entry.shape scheme.entry.labels.now scheme.entry.entries.now) }
    ensures lengths { IfOk result (λ c. (length randoms.now + 1 ≡ c.shape.e) × (places ≡ c.shape.d)) }
{
    let s = scheme.shape;
    let checked = scheme.checked(randoms.len() + 1 == s.e && places == s.d)?;
    if secret >= s.p || !scheme::all_below(s.p, randoms) {
        return Err(Refusal::NotBelowP);
    }
    Ok(checked)
}

// Deals a secret. Wrong answers that the contract rules out: done with shares that leave out the last random number; a secret that is p
// itself taken.
pub fn deal(
    scheme: Scheme<'_>,
    secret: u32,
    randoms: &[u32],
    shares: &mut [u32],
) -> Result<(), Refusal>
    ensures { DealSays scheme.entry.shape scheme.entry.labels.now scheme.entry.entries.now secret randoms.now shares.old
        result shares.new }
{
    let checked = admitted(scheme, secret, randoms, shares.len())?;
    fill(checked, secret, randoms, shares);
    Ok(())
}
