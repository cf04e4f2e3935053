// Request lines: a call's name and decimal numbers below 2^32, with one space between. The numbers of a line as one list, and the parts of
// that list: a number, or a list, which is its length and then its numbers; a scheme at the head of them, the places lent for results, a
// list of bytes. Every public function takes any line and any list.

#![tactic(auto)]

ghost use Rattle.std.specs.Prelude.{◌≡◌, Bool, ◌&&◌, List, ◌∷◌, ℕ, ◌+◌, ◌≤◌, ◌<◌, is_some, unwrap_or, length, take, drop, get_or};
ghost use Rattle.requests.specs.Text.{index_of, with_digit_lem, ReadSays, Stored};
ghost use Rattle.requests.specs.Parts.{past_number_lem, past_list_lem, list_at_lem};
ghost use Rattle.requests.specs.Bytes.{BytesSay};

use scheme::{Scheme, Shape};

const SPACE: u8 = 32;

// The place of the first space; the line's length where there is none.
fn find(line: &[u8]) -> usize
    ensures place { result ≡ index_of 32 line.now }
    ensures within { result ≤ length line.now }
{
    line.iter().position(|b| *b == SPACE).unwrap_or(line.len())
}

// The bytes before the first space.
pub fn name(line: &[u8]) -> &[u8]
    ensures { result.now ≡ take (index_of 32 line.now) line.now }
{
    let end = find(line);
    &line[..end]
}

// The bytes after the first space.
pub fn text(line: &[u8]) -> &[u8]
    ensures { result.now ≡ drop (index_of 32 line.now + 1) line.now }
{
    let start = find(line) + 1;
    &line[start.min(line.len())..]
}

// The number that is being read, none where it has no digit yet, with one more byte; none where that is no digit or the number is too large.
fn with_digit(value: Option<u32>, byte: u8) -> Option<u32>
    ensures { result ≡ with_digit_lem value byte }
{
    match byte {
        b'0'..=b'9' => value
            .unwrap_or(0)
            .checked_mul(10)?
            .checked_add((byte - b'0') as u32),
        _ => None,
    }
}

// A number ends: it has a digit, and there is a place for it. How many numbers are stored then.
fn ended(count: usize, value: Option<u32>, out: &mut [u32]) -> Option<usize>
    ensures { (text ys : List ℕ) (more : Bool) → Stored text out.old (Some count) (unwrap_or value 0 ∷ ys) (is_some value && more)
        → Stored text out.new result ys more }
{
    let number = value?;
    if out.len() <= count {
        return None;
    }
    out[count] = number;
    Some(count + 1)
}

// The numbers of a text, stored from the first place on, and how many they are; none where it is no such text, or has more numbers than there
// are places.
pub fn numbers(text: &[u8], out: &mut [u32]) -> Option<usize>
    ensures { ReadSays text.now out.new result }
{
    let mut count = 0;
    let mut value = None;
    for byte in text {
        if *byte == SPACE {
            count = ended(count, value, out)?;
            value = None;
        } else {
            value = Some(with_digit(value, *byte)?);
        }
    }
    ended(count, value, out)
}

// The first count numbers.
pub fn first(xs: &[u32], count: usize) -> &[u32]
    ensures { result.now ≡ take count xs.now }
{
    &xs[..count.min(xs.len())]
}

// The number at a place; 0 where there is none.
pub fn number_at(xs: &[u32], at: usize) -> u32
    ensures { result ≡ get_or xs.now at 0 }
{
    xs.get(at).copied().unwrap_or(0)
}

// The place after the number at a place.
pub fn past_number(xs: &[u32], at: usize) -> usize
    ensures { result ≡ past_number_lem xs.now at }
{
    at.min(xs.len()) + 1
}

// The same number as a length.
pub fn size_at(xs: &[u32], at: usize) -> usize
    ensures { result ≡ get_or xs.now at 0 }
{
    number_at(xs, at) as usize
}

// The place after the list at a place.
pub fn past_list(xs: &[u32], at: usize) -> usize
    ensures { result ≡ past_list_lem xs.now at }
{
    let end = xs.len();
    let size = size_at(xs, at);
    if end <= at || end - at <= size {
        return end + 1;
    }
    at + 1 + size
}

// The list at a place; what is there of it, where it is not all there.
pub fn list_at(xs: &[u32], at: usize) -> &[u32]
    ensures { result.now ≡ list_at_lem xs.now at }
{
    let end = xs.len();
    if end <= at {
        return &xs[end..end];
    }
    let start = at + 1;
    first(&xs[start..end], size_at(xs, at))
}

// A scheme at the head of the numbers: p, n, d, e, the labels and the entries.
pub fn scheme(xs: &[u32]) -> Scheme<'_>
    ensures shape { (result.shape.p ≡ get_or xs.now 0 0) × (result.shape.n ≡ get_or xs.now 1 0)
        × (result.shape.d ≡ get_or xs.now 2 0) × (result.shape.e ≡ get_or xs.now 3 0) }
    ensures labels { result.labels.now ≡ list_at_lem xs.now 4 }
    ensures entries { result.entries.now ≡ list_at_lem xs.now (past_list_lem xs.now 4) }
{
    let shape = Shape {
        p: number_at(xs, 0),
        n: number_at(xs, 1),
        d: size_at(xs, 2),
        e: size_at(xs, 3),
    };
    Scheme {
        shape,
        labels: list_at(xs, 4),
        entries: list_at(xs, past_list(xs, 4)),
    }
}

// The place after the scheme.
pub fn past_scheme(xs: &[u32]) -> usize
    ensures { result ≡ past_list_lem xs.now (past_list_lem xs.now 4) }
{
    past_list(xs, past_list(xs, 4))
}

// The places of a result list, and of a list of bytes: no request has more.
pub const MOST: usize = 2048;

// How many places a request lends, by the number at a place.
pub fn places(xs: &[u32], at: usize) -> usize
    ensures upper_bound { result ≤ 2048 }
    ensures value { get_or xs.now at 0 ≤ 2048 → result ≡ get_or xs.now at 0 }
{
    size_at(xs, at).min(MOST)
}

// The place after the length of a result list; past all numbers where no request lends so many places.
pub fn past_places(xs: &[u32], at: usize) -> usize
    ensures value { get_or xs.now at 0 ≤ 2048 → result ≡ past_number_lem xs.now at }
    ensures value_2 { 2048 < get_or xs.now at 0 → result ≡ length xs.now + 1 }
{
    if size_at(xs, at) > MOST {
        return xs.len() + 1;
    }
    past_number(xs, at)
}

// Are the numbers bytes, and is there a place for each? Then they stand in the first places; else no place changes.
pub fn to_bytes(xs: &[u32], out: &mut [u8]) -> bool
    ensures { BytesSay xs.now out.old result out.new }
{
    if out.len() < xs.len() || !scheme::all_below(256, xs) {
        return false;
    }
    for (i, x) in xs.iter().enumerate() {
        out[i] = *x as u8;
    }
    true
}
