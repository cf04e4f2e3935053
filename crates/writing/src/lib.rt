// A scheme written as a file: document 01's blocks of 512 bytes, one after another.

#![tactic(auto)]

ghost use Rattle.std.specs.Prelude.{◌≡◌, suc, ◌<◌, ◌≤◌, ◌+◌, ◌*◌, eqb, length, IfOk};
ghost use Rattle.lists.proofs.Fill.{Filled};
ghost use Rattle.scheme.specs.Tests.{refused};
ghost use Rattle.scheme.specs.Checked.{IsOf};
ghost use Rattle.format.specs.Format.{byte_of_lem, blocks, record_byte_lem, content_byte_lem, front_byte_lem, block_byte, file_of};
ghost use Rattle.format.specs.Writing.{write_refusal_lem};
ghost use Rattle.writing.specs.Says.{WriteSays};
ghost use Rattle.writing.specs.Steps.{weight_of};

use scheme::{Checked, Refusal, Scheme};

// The heading block and as many row blocks as d needs.
fn blocks_of(d: usize) -> usize
    requires { d ≤ 32 }
    ensures { (result ≡ blocks 1 d) × (result ≤ 3) }
{
    1 + (d + 19) / 20
}

// Whether the file has its length. Where d is above 32 the call is refused before any length counts.
fn file_fits(d: usize, places: usize) -> bool
    ensures { d ≤ 32 → result ≡ eqb places (512 * blocks 1 d) }
{
    d <= 32 && places == 512 * blocks_of(d)
}

// The scheme, where nothing is refused.
fn admitted<'a>(scheme: Scheme<'a>, places: usize) -> Result<Checked<'a>, Refusal>
    ensures refusal { refused result ≡ write_refusal_lem 1 scheme.entry.shape scheme.entry.labels.now scheme.entry.entries.now places }
    ensures same { IfOk result (IsOf scheme.entry.shape scheme.entry.labels.now scheme.entry.entries.now) }
    ensures places { IfOk result (λ c. places ≡ 512 * blocks 1 c.shape.d) }
{
    scheme.checked(file_fits(scheme.shape.d, places))
}

// Numbers little-endian: byte k.
fn byte_of(x: u32, k: usize) -> u8
    requires { k < 4 }
    ensures { result ≡ byte_of_lem x k }
{
    x.to_le_bytes()[k]
}

// The heading's content: p, n, d and e. It has no part of the two lists.
fn heading_byte(scheme: Checked<'_>, j: usize) -> u8
    ensures { result ≡ content_byte_lem 1 scheme.entry.shape scheme.entry.labels.now scheme.entry.entries.now 0 j }
{
    let s = scheme.shape;
    if j < 2 {
        return byte_of(s.p, j);
    }
    if j == 2 {
        return s.n as u8;
    }
    if j == 3 {
        return s.d as u8;
    }
    if j == 4 {
        return s.e as u8;
    }
    0
}

// Byte m of the record of row k: the label, then each entry's two bytes.
fn record_byte(scheme: Checked<'_>, k: usize, m: usize) -> u8
    requires k_lt_d { (k < scheme.shape.d) × (m < 1 + scheme.shape.e * 2) }
    ensures { result ≡ record_byte_lem 1 scheme.entry.shape scheme.entry.labels.now scheme.entry.entries.now k m }
{
    if m == 0 {
        return scheme.labels[k] as u8;
    }
    let i = m - 1;
    byte_of(scheme.entries[k * scheme.shape.e + i / 2], i % 2)
}

// The content of row block b + 1: 20 records of 25 bytes; columns past e, records past d and what comes after the records are 0.
fn rows_byte(scheme: Checked<'_>, b: usize, j: usize) -> u8
    requires b_bound { b < 2 }
    ensures { result ≡ content_byte_lem 1 scheme.entry.shape scheme.entry.labels.now scheme.entry.entries.now (suc b) j }
{
    let s = scheme.shape;
    let t = j / 25;
    if t >= 20 {
        return 0;
    }
    let k = b * 20 + t;
    if k >= s.d {
        return 0;
    }
    let m = j % 25;
    if m >= 1 + s.e * 2 {
        return 0;
    }
    record_byte(scheme, k, m)
}

fn content_byte(scheme: Checked<'_>, b: usize, j: usize) -> u8
    requires b_bound { b < 3 }
    ensures { result ≡ content_byte_lem 1 scheme.entry.shape scheme.entry.labels.now scheme.entry.entries.now b j }
{
    if b == 0 {
        return heading_byte(scheme, j);
    }
    rows_byte(scheme, b - 1, j)
}

// Bytes 0 to 507 of block b: mark, kind, version, number, content.
fn front_byte(scheme: Checked<'_>, b: usize, o: usize) -> u8
    requires b_bound { b < 3 }
    ensures { result ≡ front_byte_lem 1 scheme.entry.shape scheme.entry.labels.now scheme.entry.entries.now b o }
{
    if o < 4 {
        let mark = b"QRUL";
        return mark[o];
    }
    if o == 4 {
        return format::kind(b);
    }
    if o == 5 {
        return 1;
    }
    if o < 8 {
        return byte_of(b as u32, o - 6);
    }
    content_byte(scheme, b, o - 8)
}

// Bytes 0 to 507 of block b written; the block's check, not reduced.
fn write_front(scheme: Checked<'_>, b: usize, file: &mut [u8]) -> u32
    requires b_bound { (b < 3) × (512 * b + 512 ≤ length file.old) }
    ensures sum { result ≡ weight_of 508 (front_byte_lem 1 scheme.entry.shape scheme.entry.labels.now scheme.entry.entries.now b) }
    ensures left { Filled (512 * b) 508 (front_byte_lem 1 scheme.entry.shape scheme.entry.labels.now scheme.entry.entries.now b) file.old
        file.new 508 }
{
    let at = 512 * b;
    let mut check = 0;
    for (o, x) in file[at..at + 508].iter_mut().enumerate() {
        *x = front_byte(scheme, b, o);
        check += format::weighted(*x, o);
    }
    check
}

// The four bytes of a check.
fn write_check(check: u32, at: usize, file: &mut [u8])
    requires { at + 4 ≤ length file.old }
    ensures { Filled at 4 (byte_of_lem check) file.old file.new 4 }
{
    file[at..at + 4].copy_from_slice(&check.to_le_bytes());
}

fn write_block(scheme: Checked<'_>, b: usize, file: &mut [u8])
    requires b_bound { (b < 3) × (512 * b + 512 ≤ length file.old) }
    ensures { Filled (512 * b) 512 (block_byte 1 scheme.entry.shape scheme.entry.labels.now scheme.entry.entries.now b) file.old
        file.new 512 }
{
    let check = write_front(scheme, b, file);
    write_check(check, 512 * b + 508, file);
}

fn write_blocks(scheme: Checked<'_>, file: &mut [u8])
    requires { length file.old ≡ 512 * blocks 1 scheme.shape.d }
    ensures { file.new ≡ file_of 1 scheme.entry.shape scheme.entry.labels.now scheme.entry.entries.now }
{
    let count = blocks_of(scheme.shape.d);
    for b in 0..count {
        write_block(scheme, b, file);
    }
}

// Writes the file of a scheme. Wrong answers that the contract rules out: done with a check that is cut to its low two bytes; done with a
// file of three blocks in which both row blocks are numbered 1.
pub fn write(scheme: Scheme<'_>, file: &mut [u8]) -> Result<(), Refusal>
    ensures { WriteSays scheme.entry.shape scheme.entry.labels.now scheme.entry.entries.now file.old result file.new }
{
    let checked = admitted(scheme, file.len())?;
    write_blocks(checked, file);
    Ok(())
}
