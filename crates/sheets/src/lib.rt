// The sheet as bytes, printed into lent lists: a set's line, a refusal's line, and a scheme file's sheet part by part.

#![tactic(auto)]

ghost use Rattle.std.specs.Prelude.{◌≡◌, ◌<◌, ◌≤◌, ◌+◌, ◌*◌, ◌-◌, ◌/◌, ◌^◌, min, length, take, Ok, IfOk};
ghost use Rattle.scheme.specs.Tests.{refused};
ghost use Rattle.scheme.specs.Checked.{IsOf};
ghost use Rattle.scheme.specs.Refusal.{check_refusal};
ghost use Rattle.digits.specs.Put.{PutSome};
ghost use Rattle.sheets.specs.Sheet.{SchemePart, RefusedPart, IsPart};
ghost use Rattle.sheets.specs.Says.{LineSays, RefusedSays, PartSays, line_refusal_lem};

use scheme::{Checked, Refusal, Scheme, Shape};

// The scheme, where nothing is refused.
#[tactic(auto, using(scheme::proofs::Refusals::refusal_more))]
fn admitted<'a>(scheme: Scheme<'a>, set: u32, places: usize) -> Result<Checked<'a>, Refusal>
    ensures refusal { refused result ≡ line_refusal_lem scheme.entry.shape scheme.entry.labels.now scheme.entry.entries.now set places }
    ensures same { IfOk result (IsOf scheme.entry.shape scheme.entry.labels.now scheme.entry.entries.now) }
{
    let checked = scheme.checked(places == 256)?;
    sets::set_refusal(checked.shape.n, set)?;
    Ok(checked)
}

// Prints the line of a set: its number, OPEN or CLOSED, and the vector. Wrong answers that the contract rules out: a number past half the
// modulus printed as it is; the witness of a closed set after the word OPEN.
#[tactic(auto, using(crate::proofs::Prints::line_right, crate::proofs::Prints::print_bytes, crate::proofs::Prints::print_refused))]
pub fn line(scheme: Scheme<'_>, set: u32, out: &mut [u8]) -> Result<usize, Refusal>
    ensures { LineSays scheme.entry.shape scheme.entry.labels.now scheme.entry.entries.now set out.old result out.new }
{
    let checked = admitted(scheme, set, out.len())?;
    Ok(sheet_lines::put_set(out, 0, checked, set))
}

// Prints the line of a refusal. Wrong answers that the contract rules out: the number without the word; a line without its end.
#[tactic(auto, using(crate::proofs::Prints::put_is, crate::proofs::Prints::print_bytes, crate::proofs::Prints::print_refused))]
pub fn refused(k: u32, out: &mut [u8]) -> Result<usize, Refusal>
    ensures { RefusedSays k out.old result out.new }
{
    if out.len() != 256 {
        return Err(Refusal::Length);
    }
    Ok(sheet_lines::put_refused(out, k))
}

// The first set of part k + 1 where a part has m lines; at 65,536 there is none.
fn first_set(k: u32, m: usize) -> u32
    ensures { result ≡ min 65536 (m * k) }
{
    if k == 0 {
        return 0;
    }
    if ((65536 / k) as usize) < m {
        return 65536;
    }
    (m as u32) * k
}

// How many lines there are from set `first` on, where a part has m of them.
fn lines_left(n: u32, first: u32, m: usize) -> u32
    requires { (n ≤ 16) × (first ≤ 65536) }
    ensures { result ≡ min m (2 ^ n - first) }
{
    let end = 1u32 << n;
    if end <= first {
        return 0;
    }
    let left = end - first;
    if m < left as usize {
        return m as u32;
    }
    left
}

// Part k of the sheet of a scheme.
fn scheme_part(scheme: Checked<'_>, k: u32, out: &mut [u8]) -> usize
    requires { 256 ≤ length out.old }
    ensures put { PutSome (SchemePart (length out.old / 256) scheme.entry.shape scheme.entry.labels.now scheme.entry.entries.now k)
        out.old 0 result out.new }
    ensures room { result ≤ length out.old }
{
    if k == 0 {
        return sheet_lines::put_heading(out, scheme);
    }
    let m = out.len() / 256;
    let first = first_set(k - 1, m);
    let count = lines_left(scheme.shape.n, first, m);
    sheet_lines::put_lines(out, scheme, first, count)
}

// Part k of the sheet of a refused file.
fn refused_part(bad: u32, k: u32, out: &mut [u8]) -> usize
    requires { 256 ≤ length out.old }
    ensures put { PutSome (RefusedPart bad k) out.old 0 result out.new }
    ensures room { result ≤ length out.old }
{
    if k == 0 {
        return sheet_lines::put_refused(out, bad);
    }
    0
}

// Part k of the sheet of a scheme that was read: its labels and entries are the first of the places that it was read into.
#[tactic(auto, using(crate::proofs::FileRead::taken_small, scheme::proofs::Refusals::valid))]
fn read_part(s: Shape, labels: &[u32], entries: &[u32], k: u32, out: &mut [u8]) -> usize
    requires labels_len { (length labels.now ≡ 32) × (length entries.now ≡ 384) × (256 ≤ length out.old) }
    requires entries_value { check_refusal s (take s.d labels.now) (take (s.d * s.e) entries.now) ≡ Ok tt }
    ensures put { PutSome (SchemePart (length out.old / 256) s (take s.d labels.now)
        (take (s.d * s.e) entries.now) k) out.old 0 result out.new }
    ensures room { result ≤ length out.old }
{
    let scheme = Checked {
        shape: s,
        labels: &labels[0..s.d],
        entries: &entries[0..s.d * s.e],
    };
    scheme_part(scheme, k, out)
}

#[tactic(auto, using(crate::proofs::FileRead::refused_part_lem, crate::proofs::FileRead::read_scheme, crate::proofs::FileRead::read_part_lem, crate::proofs::Prints::put_as))]
fn file_part(file: &[u8], k: u32, out: &mut [u8]) -> usize
    requires { 256 ≤ length out.old }
    ensures put { PutSome (IsPart (length out.old / 256) file.now k)
        out.old 0 result out.new }
    ensures room { result ≤ length out.old }
{
    let mut labels = [0u32; 32];
    let mut entries = [0u32; 384];
    match reading::read(file, &mut labels, &mut entries) {
        Ok(s) => read_part(s, &labels, &entries, k, out),
        Err(bad) => refused_part(bad.number(), k, out),
    }
}

// Prints part k of the sheet of a file. Part 0 is the heading, or the line of a refused file; each later part has a line for each 256
// places; the first part without a byte says that the sheet has ended. Wrong answers that the contract rules out: a line left out between
// two parts; lines after the line of a refused file.
#[tactic(auto, using(crate::proofs::Prints::print_bytes, crate::proofs::Prints::print_refused))]
pub fn part(file: &[u8], k: u32, out: &mut [u8]) -> Result<usize, Refusal>
    ensures { PartSays file.now k out.old result out.new }
{
    if out.len() < 256 {
        return Err(Refusal::Length);
    }
    Ok(file_part(file, k, out))
}
