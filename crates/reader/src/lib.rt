// Written rules read: whether a text is a rule, and what is refused of it.

#![tactic(auto)]

ghost use Rattle.std.specs.Prelude.{◌≡◌, ℕ, ◌+◌, ◌*◌, ◌-◌, ◌<◌, length};
ghost use Rattle.rules.specs.Bytes.{occurs};
ghost use Rattle.reader.specs.Grammar.{class_of, kind_at, number_end_lem, rule_end, term_end, atom_end, Within};
ghost use Rattle.reader.specs.Recognised.{Recognised};
ghost use Rattle.reader.specs.Scan.{further, up_to};
ghost use Rattle.reader.specs.Refusal.{TextRefusal};

use scheme::Refusal;

// What a byte is: a digit from 1 to 9, the digit 0, one of the four signs, or none of these.
#[derive(Drop)]
pub enum Kind {
    Digit(u8),
    Zero,
    Or,
    And,
    Open,
    Close,
    Other,
}

#[tactic(auto, unfolding(crate::specs::Grammar::class_of))]
fn class(b: u8) -> Kind
    ensures { result ≡ class_of b }
{
    match b {
        b'1'..=b'9' => Kind::Digit(b - b'0'),
        b'0' => Kind::Zero,
        b'|' => Kind::Or,
        b'&' => Kind::And,
        b'(' => Kind::Open,
        b')' => Kind::Close,
        _ => Kind::Other,
    }
}

// What stands at a place; past the end nothing that a rule knows.
#[tactic(auto, unfolding(crate::specs::Grammar::kind_at))]
pub fn kind_at(text: &[u8], at: usize) -> Kind
    ensures { result ≡ kind_at text.now at }
{
    match text.get(at) {
        Some(b) => class(*b),
        None => Kind::Other,
    }
}

// The end of a number from 1 to 16 whose first digit is d and stands at the place.
#[tactic(auto, unfolding(crate::specs::Grammar::number_end_lem))]
pub fn number_end(text: &[u8], d: u8, at: usize) -> Option<usize>
    requires { at < length text.now }
    ensures { result ≡ number_end_lem text.now d at }
{
    match kind_at(text, at + 1) {
        Kind::Zero if d == 1 => Some(at + 2),
        Kind::Digit(e) if d == 1 && e <= 6 => Some(at + 2),
        Kind::Zero | Kind::Digit(_) => None,
        _ => Some(at + 1),
    }
}

// The end of the rule, the term or the atom that begins at the place, with at most `depth` parentheses open in it. The three call each other;
// three times the length of what is left, with 2, 1 and 0 for rule, term and atom, falls at each call.
#[cycle(atom_rule_term)]
pub fn rule(text: &[u8], depth: usize, at: usize) -> Option<usize>
    ensures by_index { (n : ℕ) → 3 * (length text.now - at) + 2 < n → result ≡ rule_end n text.now depth at }
    ensures within { Within at result }
{
    let q = term(text, depth, at)?;
    match kind_at(text, q) {
        Kind::Or => rule(text, depth, q + 1),
        _ => Some(q),
    }
}

#[cycle(atom_rule_term)]
pub fn term(text: &[u8], depth: usize, at: usize) -> Option<usize>
    ensures by_index { (n : ℕ) → 3 * (length text.now - at) + 1 < n → result ≡ term_end n text.now depth at }
    ensures within { Within at result }
{
    let q = atom(text, depth, at)?;
    match kind_at(text, q) {
        Kind::And => term(text, depth, q + 1),
        _ => Some(q),
    }
}

#[cycle(atom_rule_term)]
pub fn atom(text: &[u8], depth: usize, at: usize) -> Option<usize>
    ensures by_index { (n : ℕ) → 3 * (length text.now - at) < n → result ≡ atom_end n text.now depth at }
    ensures within { Within at result }
{
    match kind_at(text, at) {
        Kind::Digit(d) => number_end(text, d, at),
        Kind::Open => {
            let inside = depth.checked_sub(1)?;
            let q = rule(text, inside, at + 1)?;
            match kind_at(text, q) {
                Kind::Close => Some(q + 1),
                _ => None,
            }
        }
        _ => None,
    }
}

pub fn is_rule(text: &[u8]) -> bool
    ensures { Recognised text.now result }
{
    text.len() >= 1 && text.len() <= 256 && rule(text, 8, 0) == Some(text.len())
}

// How often a byte stands in a text.
#[tactic(auto, using(crate::proofs::Passes::occurs_counts))]
fn occurrences(text: &[u8], b: u8) -> usize
    ensures { result ≡ occurs b text.now }
{
    text.iter().filter(|x| **x == b).count()
}

// The number that is written so far, one byte further.
fn read_on(v: u64, b: u8) -> u64
    requires { v < 4294967296 }
    ensures { result ≡ further v b }
{
    match b {
        b'0'..=b'9' => v * 10 + u64::from(b - b'0'),
        _ => 0,
    }
}

// Whether each number of a text is at most n.
fn named(text: &[u8], n: u32) -> bool
    ensures { result ≡ up_to n 0 text.now }
{
    let most = u64::from(n);
    let mut v = 0;
    for b in text {
        v = read_on(v, *b);
        if v > most {
            return false;
        }
    }
    true
}

// What is refused of a text: 13 where it is no rule, 14 to 16 of the rule that it is.
pub fn refusal(n: u32, text: &[u8]) -> Result<(), Refusal>
    ensures { TextRefusal n text.now result }
{
    if !is_rule(text) {
        return Err(Refusal::NoRule);
    }
    if !named(text, n) {
        return Err(Refusal::RuleOutsider);
    }
    let ands = occurrences(text, b'&');
    let ors = occurrences(text, b'|');
    if ands + ors > 31 {
        return Err(Refusal::RuleRows);
    }
    if ands > 11 {
        return Err(Refusal::RuleColumns);
    }
    Ok(())
}
