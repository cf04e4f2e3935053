// A set number and its rows, for the calls that take a set: inner steps, which rest on the refusals that come before them.

#![tactic(auto)]

ghost use Rattle.std.specs.Prelude.{◌≡◌, ℕ, ◌<◌, ◌≤◌, ◌^◌, length, get_or};
ghost use Rattle.linear.specs.Bits.{bit};
ghost use Rattle.scheme.specs.Sets.{in_set, of_set};
ghost use Rattle.scheme.specs.Refusal.{set_refusal_lem, read_below_lem};

use scheme::Refusal;

// Refusal 8 for a set number with a bit from n up.
#[tactic(auto, using(scheme::proofs::Refusals::set_test))]
pub fn set_refusal(n: u32, set: u32) -> Result<(), Refusal>
    requires { n ≤ 16 }
    ensures { result ≡ set_refusal_lem n set }
{
    if set >> n != 0 {
        return Err(Refusal::Outsider);
    }
    Ok(())
}

// Whether participant i is in the set.
pub fn in_set(set: u32, i: u32) -> bool
    requires { (1 ≤ i) × (i ≤ 16) }
    ensures { result ≡ in_set set i }
{
    (set >> (i - 1)) % 2 == 1
}

// The set's rows as a number: bit k is one where row k is one of them.
pub fn chosen_rows(set: u32, labels: &[u32]) -> u32
    requires labels_len_bound { length labels.now ≤ 32 }
    requires by_index { (k : ℕ) → k < length labels.now → (1 ≤ get_or labels.now k 0) × (get_or labels.now k 0 ≤ 16) }
    ensures bits { (k : ℕ) → k < length labels.now → bit result k ≡ of_set set labels.now k }
    ensures small { result < 2 ^ length labels.now }
{
    let mut chosen = 0;
    for i in labels.iter().rev() {
        let b = in_set(set, *i);
        chosen = chosen * 2 + u32::from(b);
    }
    chosen
}

// Whether each share at the set's rows is below p; the other places are not read.
pub fn read_below(p: u32, set: u32, labels: &[u32], shares: &[u32]) -> bool
    requires labels_len { length labels.now ≡ length shares.now }
    requires by_index { (k : ℕ) → k < length labels.now → (1 ≤ get_or labels.now k 0) × (get_or labels.now k 0 ≤ 16) }
    ensures { result ≡ read_below_lem p set labels.now shares.now }
{
    labels
        .iter()
        .zip(shares)
        .all(|(i, share)| !in_set(set, *i) || *share < p)
}
