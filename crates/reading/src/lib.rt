// A scheme file read: refused as document 01 says, or its numbers and lists handed on.

#![tactic(auto)]

ghost use Rattle.std.specs.Prelude.{◌≡◌, ◌||◌, ◌<◌, ◌≤◌, ◌+◌, ◌*◌, ◌/◌, ◌%◌, eqb, length};
ghost use Rattle.linear.specs.Flat.{place};
ghost use Rattle.scheme.specs.Tests.{within, each, each_below};
ghost use Rattle.scheme.specs.Outcome.{over};
ghost use Rattle.format.specs.Format.{number_of, used, blocks};
ghost use Rattle.format.specs.Reading.{all_below, check_right_lem, marks_right_lem, shape_at, record_at, labels_at, entries_at};
ghost use Rattle.format.specs.Reading.{zeros_right_lem, rest_right_lem, read_refusal1};
ghost use Rattle.reading.specs.Parts.{content_of, check_sum_lem, entry_at, length_right_lem, blocks_refusal_lem, scheme_refusal_lem};
ghost use Rattle.reading.specs.Says.{ReadSays};

use scheme::{Refusal, Shape};

// A block's content: that part of the caller's bytes, not a copy.
fn content(file: &[u8], b: usize) -> &[u8]
    requires { 512 * b + 512 ≤ length file.now }
    ensures { (result.now ≡ content_of file.now b) × (length result.now ≡ 500) }
{
    let start = 512 * b + 8;
    let end = start + 500;
    &file[start..end]
}

// Numbers little-endian.
fn two_bytes(bytes: &[u8], at: usize) -> u32
    requires { at + 2 ≤ length bytes.now }
    ensures { (result ≡ number_of 2 (λ k. place bytes.now (at + k))) × (result < 65536) }
{
    u32::from(u16::from_le_bytes([bytes[at], bytes[at + 1]]))
}

fn four_bytes(bytes: &[u8], at: usize) -> u32
    requires { at + 4 ≤ length bytes.now }
    ensures { result ≡ number_of 4 (λ k. place bytes.now (at + k)) }
{
    u32::from_le_bytes([bytes[at], bytes[at + 1], bytes[at + 2], bytes[at + 3]])
}

fn check_sum(file: &[u8], b: usize) -> u32
    requires { 512 * b + 512 ≤ length file.now }
    ensures { result ≡ check_sum_lem file.now b }
{
    let at = 512 * b;
    let mut sum = 0;
    for (o, x) in file[at..at + 508].iter().enumerate() {
        sum += format::weighted(*x, o);
    }
    sum
}

fn check_right(file: &[u8], b: usize) -> bool
    requires { 512 * b + 512 ≤ length file.now }
    ensures { result ≡ check_right_lem 1 file.now b }
{
    four_bytes(file, 512 * b + 508) == check_sum(file, b)
}

// 18 for all blocks.
fn checks_right(file: &[u8], count: usize) -> bool
    requires { 512 * count ≤ length file.now }
    ensures { result ≡ all_below count (check_right_lem 1 file.now) }
{
    (0..count).all(|b| check_right(file, b))
}

// Whether the word stands in the bytes from the place on.
fn same_at(bytes: &[u8], at: usize, word: &[u8]) -> bool
    requires { at + length word.now ≤ length bytes.now }
    ensures { result ≡ all_below (length word.now)
        (λ o. eqb (place bytes.now (at + o)) (place word.now o)) }
{
    bytes[at..].starts_with(word)
}

// The block's mark, kind, version and number.
fn mark_right(file: &[u8], b: usize) -> bool
    requires { 512 * b + 512 ≤ length file.now }
    ensures { result ≡ marks_right_lem 1 file.now b }
{
    let at = 512 * b;
    if !same_at(file, at, b"QRUL") {
        return false;
    }
    if file[at + 4] != format::kind(b) {
        return false;
    }
    if file[at + 5] != 1 {
        return false;
    }
    let number = two_bytes(file, at + 6);
    (number as usize) == b
}

// 19 for all blocks.
fn marks_right(file: &[u8], count: usize) -> bool
    requires { 512 * count ≤ length file.now }
    ensures { result ≡ all_below count (marks_right_lem 1 file.now) }
{
    (0..count).all(|b| mark_right(file, b))
}

// The heading's numbers.
fn heading(file: &[u8]) -> Shape
    requires { 512 ≤ length file.now }
    ensures { result ≡ shape_at 1 file.now }
{
    let c = content(file, 0);
    Shape {
        p: two_bytes(c, 0),
        n: u32::from(c[2]),
        d: usize::from(c[3]),
        e: usize::from(c[4]),
    }
}

// Whether a place of a block's content has a use.
fn has_use(d: usize, e: usize, b: usize, j: usize) -> bool
    requires { (e ≤ 12) × (b < 3) × (j < 500) }
    ensures { result ≡ used 1 d e b j }
{
    if b == 0 {
        return j < 5;
    }
    if (b - 1) * 20 + j / 25 >= d {
        return false;
    }
    j % 25 < 1 + e * 2
}

fn zero_or_used(d: usize, e: usize, b: usize, j: usize, x: u8) -> bool
    requires { (e ≤ 12) × (b < 3) × (j < 500) }
    ensures { result ≡ (used 1 d e b j || eqb x 0) }
{
    has_use(d, e, b, j) || x == 0
}

// Whether each byte of a block's content that has no use is 0.
fn zeros_in(file: &[u8], d: usize, e: usize, b: usize) -> bool
    requires { (e ≤ 12) × (b < 3) × (512 * b + 512 ≤ length file.now) }
    ensures { result ≡ zeros_right_lem 1 file.now d e b }
{
    content(file, b)
        .iter()
        .enumerate()
        .all(|(j, x)| zero_or_used(d, e, b, j, *x))
}

fn zeros_right(file: &[u8], count: usize, d: usize, e: usize) -> bool
    requires { (e ≤ 12) × (count ≤ 3) × (512 * count ≤ length file.now) }
    ensures { result ≡ all_below count (zeros_right_lem 1 file.now d e) }
{
    (0..count).all(|b| zeros_in(file, d, e, b))
}

// 20: the block count, then the bytes that must be 0.
fn rest_right(file: &[u8], s: Shape) -> bool
    requires { (s.d ≤ 32) × (s.e ≤ 12) × (length file.now ≤ 1536) }
    ensures { result ≡ rest_right_lem 1 file.now s }
{
    let count = file.len() / 512;
    if count != 1 + (s.d + 19) / 20 {
        return false;
    }
    zeros_right(file, count, s.d, s.e)
}

// The label of row k.
fn label(file: &[u8], k: usize) -> u32
    requires { 512 * (1 + k / 20) + 512 ≤ length file.now }
    ensures { result ≡ record_at 1 file.now k 0 }
{
    let c = content(file, 1 + k / 20);
    u32::from(c[(k % 20) * 25])
}

// Entry i of the file, counted row by row.
fn entry(file: &[u8], e: usize, i: usize) -> u32
    requires { (0 < e) × (e ≤ 12) × (512 * (1 + (i / e) / 20) + 512 ≤ length file.now) }
    ensures { result ≡ entry_at file.now e i }
{
    let k = i / e;
    let c = content(file, 1 + k / 20);
    two_bytes(c, (k % 20) * 25 + 1 + (i % e) * 2)
}

// 6: the labels.
fn labels_right(file: &[u8], n: u32, d: usize) -> bool
    requires { (d ≤ 32) × (512 * blocks 1 d ≤ length file.now) }
    ensures { result ≡ each (within 1 n) (labels_at 1 file.now d) }
{
    (0..d).all(|k| scheme::between(1, n as usize, label(file, k) as usize))
}

// 7: the entries.
fn entries_right(file: &[u8], p: u32, d: usize, e: usize) -> bool
    requires { (d ≤ 32) × (0 < e) × (e ≤ 12) × (512 * blocks 1 d ≤ length file.now) }
    ensures { result ≡ each_below p (entries_at 1 file.now d e) }
{
    (0..d * e).all(|i| entry(file, e, i) < p)
}

fn length_right(size: usize) -> bool
    ensures { result ≡ length_right_lem size }
{
    size == 1024 || size == 1536
}

// 5, 17, 18 and 19.
#[tactic(auto, unfolding(crate::specs::Parts::blocks_refusal_lem))]
fn blocks_refusal(file: &[u8], labels: usize, entries: usize) -> Result<(), Refusal>
    ensures { result ≡ blocks_refusal_lem file.now labels entries }
{
    if labels != 32 || entries != 384 {
        return Err(Refusal::Length);
    }
    if !length_right(file.len()) {
        return Err(Refusal::FileLength);
    }
    let count = file.len() / 512;
    if !checks_right(file, count) {
        return Err(Refusal::BlockCheck);
    }
    if !marks_right(file, count) {
        return Err(Refusal::BlockMark);
    }
    Ok(())
}

// 1 to 4, 20, 6 and 7.
#[tactic(auto, unfolding(crate::specs::Parts::scheme_refusal_lem, scheme::specs::Refusal::content_refusal_lem))]
fn scheme_refusal(file: &[u8]) -> Result<(), Refusal>
    requires { (512 ≤ length file.now) × (length file.now ≤ 1536) }
    ensures { result ≡ scheme_refusal_lem file.now (shape_at 1 file.now) }
{
    let s = heading(file);
    scheme::numbers_refusal(s)?;
    if !rest_right(file, s) {
        return Err(Refusal::FileRest);
    }
    if !labels_right(file, s.n, s.d) {
        return Err(Refusal::Label);
    }
    if !entries_right(file, s.p, s.d, s.e) {
        return Err(Refusal::Entry);
    }
    Ok(())
}

#[tactic(auto, using(crate::proofs::Order::blocks_pass, crate::proofs::Order::blocks_sized))]
fn refusal(file: &[u8], labels: usize, entries: usize) -> Result<(), Refusal>
    ensures { result ≡ read_refusal1 file.now labels entries }
{
    blocks_refusal(file, labels, entries)?;
    scheme_refusal(file)
}

fn fill_labels(file: &[u8], d: usize, labels: &mut [u32])
    requires { (d ≤ length labels.old) × (512 * blocks 1 d ≤ length file.now) }
    ensures { labels.new ≡ over (labels_at 1 file.now d) labels.old }
{
    for (k, x) in labels[..d].iter_mut().enumerate() {
        *x = label(file, k);
    }
}

fn fill_entries(file: &[u8], d: usize, e: usize, entries: &mut [u32])
    requires { (0 < e) × (e ≤ 12) × (d * e ≤ length entries.old) × (512 * blocks 1 d ≤ length file.now) }
    ensures { entries.new ≡ over (entries_at 1 file.now d e) entries.old }
{
    for (i, x) in entries[..d * e].iter_mut().enumerate() {
        *x = entry(file, e, i);
    }
}

// Reads a scheme file into the two lent lists. Wrong answers that the contract rules out: 19 for a file with a wrong mark in one block and a
// wrong check in a later one; a scheme with the places past its d labels set to 0.
#[tactic(auto, unfolding(crate::specs::Says::ReadSays))]
pub fn read(file: &[u8], labels: &mut [u32], entries: &mut [u32]) -> Result<Shape, Refusal>
    ensures { ReadSays file.now labels.old entries.old
        result labels.new entries.new }
{
    refusal(file, labels.len(), entries.len())?;
    let s = heading(file);
    fill_labels(file, s.d, labels);
    fill_entries(file, s.d, s.e, entries);
    Ok(s)
}
