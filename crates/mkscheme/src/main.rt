// A scheme file from a written rule. Standard input is one line, `p n rule`: the modulus, the number of participants and the rule, with one
// space between. Standard output is the scheme file, or the line REFUSED with the number. What is no decimal number below 2^32 is no modulus
// and no number of participants: 1 and 2.

#![tactic(auto)]

ghost use Rattle.std.specs.Prelude.{◌≡◌, ◌≤◌, ◌*◌, length, take, Ok};
ghost use Rattle.scheme.specs.Refusal.{check_refusal};

use scheme::{Refusal, Scheme, Shape};
use std::io;
use std::io::Write;

const NEWLINE: u8 = 10;

// The first line, without its end.
fn first_line(input: &[u8]) -> &[u8] {
    let end = input.iter().position(|b| *b == NEWLINE);
    &input[..end.unwrap_or(input.len())]
}

// A word as a number.
fn number(word: &[u8]) -> Option<u32> {
    let mut one = [0];
    requests::numbers(word, &mut one)?;
    Some(one[0])
}

fn say_refused(to: &mut impl Write, why: Refusal) -> io::Result<()> {
    let mut line = [0u8; 256];
    let size = sheets::refused(why.number(), &mut line).unwrap_or(0);
    if size > line.len() {
        return Ok(());
    }
    to.write_all(&line[0..size])
}

// How many bytes the file of d rows has: a heading block and a block for each 20 rows.
fn file_size(d: usize) -> usize
    ensures { result ≤ 1536 }
{
    if d <= 20 {
        return 1024;
    }
    1536
}

fn print_file(to: &mut impl Write, scheme: Scheme<'_>, file: &mut [u8]) -> io::Result<()> {
    match writing::write(scheme, file) {
        Ok(()) => to.write_all(file),
        Err(why) => say_refused(to, why),
    }
}

// Prints the file of a scheme that was built: its labels and entries are the first of the places that it was built into.
#[tactic(auto, using(sheets::proofs::FileRead::taken_small))]
fn print_built(
    to: &mut impl Write,
    s: Shape,
    labels: &[u32],
    entries: &[u32],
    file: &mut [u8],
) -> io::Result<()>
    requires labels_len { (length labels.now ≡ 32) × (length entries.now ≡ 384) × (length file.old ≡ 1536) }
    requires entries_value { check_refusal s (take s.d labels.now) (take (s.d * s.e) entries.now) ≡ Ok tt }
{
    let scheme = Scheme {
        shape: s,
        labels: &labels[..s.d],
        entries: &entries[..s.d * s.e],
    };
    let size = file_size(s.d);
    print_file(to, scheme, &mut file[..size])
}

fn make(
    to: &mut impl Write,
    p: u32,
    n: u32,
    text: &[u8],
    labels: &mut [u32],
    entries: &mut [u32],
    file: &mut [u8],
) -> io::Result<()>
    requires { (length labels.old ≡ 32) × (length entries.old ≡ 384) × (length file.old ≡ 1536) }
{
    match rule::build(p, n, text, labels, entries) {
        Ok(s) => print_built(to, s, labels, entries, file),
        Err(why) => say_refused(to, why),
    }
}

// What is printed is one write, so that it needs no buffer.
fn main(rt: HostRuntime) -> io::Result<()> {
    let mut space = [0u8; 4096];
    let got = input::read_full(&mut rt.reader(), &mut space)?;
    let line = first_line(&space[..got]);
    let rest = requests::text(line);
    // 0 is refused in the place of what is no number.
    let p = number(requests::name(line)).unwrap_or(0);
    let n = number(requests::name(rest)).unwrap_or(0);
    let mut labels = [0u32; 32];
    let mut entries = [0u32; 384];
    let mut file = [0u8; 1536];
    make(
        &mut io::writer(&rt),
        p,
        n,
        requests::text(rest),
        &mut labels,
        &mut entries,
        &mut file,
    )
}
