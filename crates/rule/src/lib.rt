// From a written rule to its scheme: the four numbers, the labels and the entries.

#![tactic(auto)]

ghost use Rattle.std.specs.Prelude.{◌≡◌, ◌*◌, ◌≤◌, length, Ok};
ghost use Rattle.reader.specs.Refusal.{TextRefusal};
ghost use Rattle.rule.specs.Says.{front_refusal_lem, RuleSays};
ghost use Rattle.rule.specs.Copied.{Copied, Written};

use scheme::{Refusal, Shape};

fn front_refusal(p: u32, n: u32, lplaces: usize, eplaces: usize) -> Result<(), Refusal>
    ensures { result ≡ front_refusal_lem p n lplaces eplaces }
{
    if !residue::is_modulus(p) {
        return Err(Refusal::Modulus);
    }
    if !scheme::between(1, 16, n as usize) {
        return Err(Refusal::Participants);
    }
    if lplaces != 32 || eplaces != 384 {
        return Err(Refusal::Length);
    }
    Ok(())
}

// The first d rows copied, e numbers each, one after another.
fn copy_rows(d: usize, e: usize, table: &[[u32; 12]], entries: &mut [u32])
    requires { (d ≤ length table.now) × (d ≤ 32) × (e ≤ 12) × (d * e ≤ length entries.old) }
    ensures { Copied d e table.now entries.old entries.new }
{
    for (k, row) in table[..d].iter().enumerate() {
        entries[k * e..k * e + e].copy_from_slice(&row[..e]);
    }
}

// The scheme of a rule of which nothing is refused, built in the working lists `ents` and `labs` and then copied.
fn write(
    p: u32,
    n: u32,
    text: &[u8],
    ents: &mut [[u32; 12]],
    labs: &mut [u32],
    labels: &mut [u32],
    entries: &mut [u32],
) -> Shape
    requires le_p { (1 ≤ p) × (32 ≤ length ents.old) × (32 ≤ length labs.old) × (length labels.old ≡ 32) × (length entries.old ≡ 384) }
    requires text_refusal { TextRefusal n text.now (Ok tt) }
    ensures { Written p n text.now labels.old entries.old result labels.new entries.new }
{
    let made = builder::make(p, text, ents, labs).unwrap();
    let d = made.row;
    let e = made.col;
    labels[..d].copy_from_slice(&labs[..d]);
    copy_rows(d, e, ents, entries);
    Shape { p, n, d, e }
}

// Builds the scheme of a written rule. Wrong answers that the contract rules out: a column taken after what is inside a term; a scheme for a
// text with a ninth open parenthesis; labels written where the call is refused.
#[tactic(auto, unfolding(crate::specs::Says::RuleSays))]
pub fn build(
    p: u32,
    n: u32,
    text: &[u8],
    labels: &mut [u32],
    entries: &mut [u32],
) -> Result<Shape, Refusal>
    ensures { RuleSays p n text.now labels.old entries.old result labels.new entries.new }
{
    front_refusal(p, n, labels.len(), entries.len())?;
    reader::refusal(n, text)?;
    let mut ents = [[0u32; 12]; 32];
    let mut labs = [0u32; 32];
    Ok(write(p, n, text, &mut ents, &mut labs, labels, entries))
}
