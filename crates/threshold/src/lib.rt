// The threshold verdict: is each set open exactly if it has at least t + 1 participants?

#![tactic(auto)]

ghost use Rattle.std.specs.Prelude.{◌≡◌, ◌≤◌, ◌^◌, leb, IfOk};
ghost use Rattle.std.specs.Bool.{beq};
ghost use Rattle.scheme.specs.Tests.{refused};
ghost use Rattle.scheme.specs.Checked.{IsOf};
ghost use Rattle.scheme.specs.Refusal.{threshold_refusal_lem};
ghost use Rattle.threshold.specs.Says.{ThresholdSays};
ghost use Rattle.threshold.specs.First.{FirstOrNone};

use residue::PrimeModulus;
use scheme::{Checked, Refusal, Scheme};

// The scheme, where nothing is refused.
#[tactic(auto, using(scheme::proofs::Refusals::refusal_more))]
fn admitted<'a>(scheme: Scheme<'a>, t: u32) -> Result<Checked<'a>, Refusal>
    ensures refusal { refused result ≡ threshold_refusal_lem scheme.entry.shape scheme.entry.labels.now scheme.entry.entries.now t }
    ensures same { IfOk result (IsOf scheme.entry.shape scheme.entry.labels.now scheme.entry.entries.now) }
{
    let checked = scheme.checked(true)?;
    if t >= scheme.shape.n {
        return Err(Refusal::Threshold);
    }
    Ok(checked)
}

// The set numbers of n participants end before 2 to the n.
fn sets_end(n: u32) -> u32
    requires { n ≤ 16 }
    ensures { result ≡ 2 ^ n }
{
    1u32 << n
}

// Whether a set of that size breaks the threshold t: open with too few participants, or closed with enough.
fn breaks(opens: bool, size: u32, t: u32) -> bool
    ensures { result ≡ beq opens (leb size t) }
{
    let few = size <= t;
    opens == few
}

// The first set number that breaks the threshold t.
fn first_breaking(scheme: Checked<'_>, t: u32) -> Option<u32>
    ensures { FirstOrNone scheme.entry.shape scheme.entry.labels.now scheme.entry.entries.now t result }
{
    let s = scheme.shape;
    let f = PrimeModulus::new(s.p);
    'sets: {
        for set in 0..sets_end(s.n) {
            let chosen = sets::chosen_rows(set, scheme.labels);
            // The set's rows are gone through until one gives the target.
            let mut table = [[0u32; 27]; 12];
            let mut lines = 0;
            let opens = 'rows: {
                for k in 0..s.d {
                    let v = rows::next_line(f, s.e, chosen, k, lines, scheme.entries, &table);
                    if rows::is_target(s.e, &v) {
                        break 'rows true;
                    }
                    lines = rows::store(s.e, lines, v, &mut table);
                }
                false
            };
            if breaks(opens, u32::count_ones(set), t) {
                break 'sets Some(set);
            }
        }
        None
    }
}

// Is the scheme one with threshold t? The first set number that breaks it, where there is one. Wrong answers that the contract rules out:
// rows counted where participants are meant; sets of t + 1 participants looked at alone; a set that breaks it, but not the first.
#[tactic(auto, using(crate::proofs::Says::says_refused, crate::proofs::Says::says_first))]
pub fn threshold(scheme: Scheme<'_>, t: u32) -> Result<Option<u32>, Refusal>
    ensures { ThresholdSays scheme.entry.shape scheme.entry.labels.now scheme.entry.entries.now t result }
{
    let checked = admitted(scheme, t)?;
    Ok(first_breaking(checked, t))
}
