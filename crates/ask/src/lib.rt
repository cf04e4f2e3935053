// The set question: is the set open? With the vector r or the witness z.

#![tactic(auto)]

ghost use Rattle.std.specs.Prelude.{◌≡◌, IfOk};
ghost use Rattle.scheme.specs.Tests.{refused};
ghost use Rattle.scheme.specs.Checked.{IsOf};
ghost use Rattle.scheme.specs.Refusal.{ask_refusal_lem};
ghost use Rattle.ask.specs.Says.{AskSays};

use scheme::{Checked, Refusal, Scheme};

// Open with r, or closed with z.
#[derive(Clone, Copy, Debug, PartialEq, Eq)]
pub enum Verdict {
    Open,
    Closed,
}

// The scheme, where nothing is refused.
#[tactic(auto, using(scheme::proofs::Refusals::refusal_more))]
fn admitted<'a>(
    scheme: Scheme<'a>,
    set: u32,
    rplaces: usize,
    zplaces: usize,
) -> Result<Checked<'a>, Refusal>
    ensures refusal { refused result ≡ ask_refusal_lem scheme.entry.shape scheme.entry.labels.now scheme.entry.entries.now set rplaces zplaces }
    ensures same { IfOk result (IsOf scheme.entry.shape scheme.entry.labels.now scheme.entry.entries.now) }
    ensures places { IfOk result (λ c. (rplaces ≡ c.shape.d) × (zplaces ≡ c.shape.e)) }
{
    let s = scheme.shape;
    let checked = scheme.checked(rplaces == s.d && zplaces == s.e)?;
    sets::set_refusal(s.n, set)?;
    Ok(checked)
}

// Is the set open? Wrong answers that the contract rules out: closed because the set has fewer rows than columns; open because its rows are
// independent, or many; a witness that begins with 0.
#[tactic(auto, using(crate::proofs::Says::says_refused, crate::proofs::Says::says_open, crate::proofs::Says::says_closed))]
pub fn ask(scheme: Scheme<'_>, set: u32, r: &mut [u32], z: &mut [u32]) -> Result<Verdict, Refusal>
    ensures { AskSays scheme.entry.shape scheme.entry.labels.now scheme.entry.entries.now set r.old
        z.old result r.new z.new }
{
    let checked = admitted(scheme, set, r.len(), z.len())?;
    let s = checked.shape;
    let chosen = sets::chosen_rows(set, checked.labels);
    let a = rows::ask(s.p, s.d, s.e, chosen, checked.entries, r, z);
    if a.opens {
        return Ok(Verdict::Open);
    }
    Ok(Verdict::Closed)
}
