// The lines of the sheet, printed into a lent list of bytes: inner steps, which rest on the refusals that come before them. A line has
// 256 bytes at most.

#![tactic(auto)]

ghost use Rattle.std.specs.Prelude.{ℕ, ◌<◌, ◌≤◌, ◌+◌, ◌*◌, length, get_or};
ghost use Rattle.walk.specs.Answers.{Says, Kept};
ghost use Rattle.digits.specs.Digits.{decimal};
ghost use Rattle.digits.specs.Put.{Put, PutSome};
ghost use Rattle.sheet_lines.specs.Texts.{field, heading_text, vector_text, set_text, refused_text, verdict_word};
ghost use Rattle.sheet_lines.specs.Lines.{IsLine, IsLines};

use scheme::Checked;
use walk::Answer;

// A number as a field: a space before it.
#[tactic(auto, using(crate::proofs::Texts::put_spaced))]
fn put_field(out: &mut [u8], at: usize, n: u32) -> usize
    requires { at + 11 ≤ length out.old }
    ensures put { Put out.old at (field (decimal n)) result out.new }
    ensures room { result ≤ at + 11 }
{
    let start = digits::put_text(out, at, b" ");
    digits::put_number(out, start, n)
}

// The heading from the first place on.
pub fn put_heading(out: &mut [u8], scheme: Checked<'_>) -> usize
    requires { 256 ≤ length out.old }
    ensures put { Put out.old 0 (heading_text scheme.entry.shape) result out.new }
    ensures room { result ≤ length out.old }
{
    let s = scheme.shape;
    let mut at = digits::put_text(out, 0, b"SCHEME");
    at = put_field(out, at, s.p);
    at = put_field(out, at, s.n);
    at = put_field(out, at, s.d as u32);
    at = put_field(out, at, s.e as u32);
    digits::put_text(out, at, b"\n")
}

// The line of a refusal from the first place on.
pub fn put_refused(out: &mut [u8], k: u32) -> usize
    requires { 256 ≤ length out.old }
    ensures put { Put out.old 0 (refused_text k) result out.new }
    ensures room { result ≤ length out.old }
{
    let mut at = digits::put_text(out, 0, b"REFUSED");
    at = put_field(out, at, k);
    digits::put_text(out, at, b"\n")
}

// A vector, each number as a field.
fn put_vector(out: &mut [u8], at: usize, p: u32, vector: &[u32]) -> usize
    requires p_bound { (p < 65536) × (length vector.now ≤ 32) × (at + 224 ≤ length out.old) }
    requires by_index { (i : ℕ) → i < length vector.now → get_or vector.now i 0 < p }
    ensures put { Put out.old at (vector_text p vector.now) result out.new }
    ensures room { result ≤ at + 224 }
{
    let mut end = at;
    for v in vector {
        end = digits::put_text(out, end, b" ");
        end = digits::put_residue(out, end, p, *v);
    }
    end
}

fn put_verdict(out: &mut [u8], at: usize, opens: bool) -> usize
    requires { at + 7 ≤ length out.old }
    ensures put { Put out.old at (field (verdict_word opens)) result out.new }
    ensures room { result ≤ at + 7 }
{
    if opens {
        return digits::put_text(out, at, b" OPEN");
    }
    digits::put_text(out, at, b" CLOSED")
}

// The line of a set with its vector.
fn put_line(out: &mut [u8], at: usize, p: u32, set: u32, opens: bool, vector: &[u32]) -> usize
    requires p_bound { (p < 65536) × (length vector.now ≤ 32) × (at + 256 ≤ length out.old) }
    requires by_index { (i : ℕ) → i < length vector.now → get_or vector.now i 0 < p }
    ensures put { Put out.old at (set_text p set opens vector.now) result out.new }
    ensures room { result ≤ at + 256 }
{
    let mut end = digits::put_number(out, at, set);
    end = put_verdict(out, end, opens);
    end = put_vector(out, end, p, vector);
    digits::put_text(out, end, b"\n")
}

// The line of a set: asked, and printed.
#[tactic(auto, using(crate::proofs::Lines::shows_open, crate::proofs::Lines::shows_closed, crate::proofs::Lines::line_put))]
pub fn put_set(out: &mut [u8], at: usize, scheme: Checked<'_>, set: u32) -> usize
    requires { at + 256 ≤ length out.old }
    ensures put { PutSome (IsLine scheme.entry.shape scheme.entry.labels.now scheme.entry.entries.now set)
        out.old at result out.new }
    ensures room { result ≤ at + 256 }
{
    let s = scheme.shape;
    let mut r = [0u32; 32];
    let mut z = [0u32; 32];
    let r = &mut r[..s.d];
    let z = &mut z[..s.e];
    let chosen = sets::chosen_rows(set, scheme.labels);
    let a = rows::ask(s.p, s.d, s.e, chosen, scheme.entries, r, z);
    if a.opens {
        return put_line(out, at, s.p, set, true, r);
    }
    put_line(out, at, s.p, set, false, z)
}

// The lines of so many sets from `first` on, from the first place on, each set asked by itself. There are 256 bytes for each.
#[tactic(auto, using(crate::proofs::Lines::lines_none, crate::proofs::Lines::lines_end))]
fn put_each(out: &mut [u8], scheme: Checked<'_>, first: u32, count: u32) -> usize
    requires { (first + count ≤ 65536) × (256 * count ≤ length out.old) }
    ensures put { PutSome (IsLines scheme.entry.shape scheme.entry.labels.now scheme.entry.entries.now first count)
        out.old 0 result out.new }
    ensures room { result ≤ 256 * count }
{
    let mut end = 0;
    for i in 0..count {
        end = put_set(out, end, scheme, first + i);
    }
    end
}

// The line of a set whose answer is kept; where there is none the set is asked.
fn put_kept(
    out: &mut [u8],
    at: usize,
    scheme: Checked<'_>,
    set: u32,
    kept: &Option<Answer>,
) -> usize
    requires room { at + 256 ≤ length out.old }
    requires says { Says scheme.shape scheme.labels.now scheme.entries.now set kept.now }
    ensures put { PutSome (IsLine scheme.entry.shape scheme.entry.labels.now scheme.entry.entries.now set)
        out.old at result out.new }
    ensures room { result ≤ at + 256 }
{
    let s = scheme.shape;
    match kept {
        Some(Answer::Open(r)) => put_line(out, at, s.p, set, true, &r[..s.d]),
        Some(Answer::Closed(z)) => put_line(out, at, s.p, set, false, &z[..s.e]),
        None => put_set(out, at, scheme, set),
    }
}

// The lines of so many sets from `first` on, whose answers are kept. It differs from `put_each` in the one line that prints: a closure for that
// line would be longer than the two.
#[tactic(auto, using(crate::proofs::Lines::lines_none, crate::proofs::Lines::lines_end))]
fn put_run(
    out: &mut [u8],
    at: usize,
    scheme: Checked<'_>,
    first: u32,
    count: u32,
    slots: &[Option<Answer>; 4096],
) -> usize
    requires count_bound { (first + count ≤ 65536) × (count ≤ 4096) × (at + 256 * count ≤ length out.old) }
    requires kept { Kept scheme.shape scheme.labels.now scheme.entries.now first slots.now }
    ensures put { PutSome (IsLines scheme.entry.shape scheme.entry.labels.now scheme.entry.entries.now first count)
        out.old at result out.new }
    ensures room { result ≤ at + 256 * count }
{
    let mut end = at;
    for i in 0..count {
        end = put_kept(out, end, scheme, first + i, &slots[i as usize]);
    }
    end
}

// How many of the sets that are left a run has.
fn run_length(left: u32) -> u32
    ensures { (result ≤ 4096) × (result ≤ left) × (0 < left → 0 < result) }
{
    left.min(4096)
}

// The lines of so many sets from `first` on, from the first place on, asked in runs of up to 4,096.
#[tactic(auto, using(crate::proofs::Lines::lines_none, crate::proofs::Lines::lines_end))]
fn put_runs(out: &mut [u8], scheme: Checked<'_>, first: u32, count: u32) -> usize
    requires { (first + count ≤ 65536) × (256 * count ≤ length out.old) }
    ensures put { PutSome (IsLines scheme.entry.shape scheme.entry.labels.now scheme.entry.entries.now first count)
        out.old 0 result out.new }
    ensures room { result ≤ 256 * count }
{
    let mut slots = [None; 4096];
    let mut end = 0;
    let mut i = 0;
    // A `while`, since the step is a run's length: `step_by` would have to work the same length out and is no plainer.
    while i < count {
        let some = run_length(count - i);
        walk::fill(scheme, first + i, some, &mut slots);
        end = put_run(out, end, scheme, first + i, some, &slots);
        i += some;
    }
    end
}

// The lines of so many sets from `first` on, from the first place on. There are 256 bytes for each.
pub fn put_lines(out: &mut [u8], scheme: Checked<'_>, first: u32, count: u32) -> usize
    requires { (first + count ≤ 65536) × (256 * count ≤ length out.old) }
    ensures put { PutSome (IsLines scheme.entry.shape scheme.entry.labels.now scheme.entry.entries.now first count)
        out.old 0 result out.new }
    ensures room { result ≤ length out.old }
{
    // A few sets have too little in common to be worth places for their answers.
    if count < 16 {
        return put_each(out, scheme, first, count);
    }
    put_runs(out, scheme, first, count)
}
