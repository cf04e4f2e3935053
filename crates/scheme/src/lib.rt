// A scheme as numbers and lent lists, and what is wrong with one: refusals 1 to 7, in the order of document 01's table.

#![tactic(auto)]

ghost use Rattle.std.specs.Prelude.{◌≡◌, Ok, IfOk, true};
ghost use Rattle.scheme.specs.Tests.{within, each, each_below, refused};
ghost use Rattle.scheme.specs.Numbers.{number_lem};
ghost use Rattle.scheme.specs.Refusal.{numbers_refusal_lem, content_refusal_lem, refusal_of, check_refusal, IsScheme};
ghost use Rattle.scheme.specs.Valid.{Valid};

use std::fmt;

// Why a call is refused: document 01's table, in its order.
#[derive(Clone, Copy, Debug, PartialEq, Eq)]
pub enum Refusal {
    // 1 to 4: p, n, d, e not as said.
    Modulus,
    Participants,
    Rows,
    Columns,
    // 5: a lent list has not exactly the length needed.
    Length,
    // 6: a label outside 1 to n.
    Label,
    // 7: an entry not below p.
    Entry,
    // 8: a set names, or a call gives, a participant outside 1 to n.
    Outsider,
    // 9: a secret, random number or share that is read is not below p.
    NotBelowP,
    // 10: t not below n.
    Threshold,
    // 11, 12: set closed; shares fit no dealing.
    SetClosed,
    NoDealing,
    // 13: text is no rule.
    NoRule,
    // 14: rule names someone above n.
    RuleOutsider,
    // 15, 16: rule needs over 32 rows; over 12 columns.
    RuleRows,
    RuleColumns,
    // 17: file not 1,024 or 1,536 bytes.
    FileLength,
    // 18: a block's check wrong.
    BlockCheck,
    // 19: mark, kind, version or block number wrong.
    BlockMark,
    // 20: a byte that must be 0 is not, or block count does not fit d.
    FileRest,
    // 21, 22: card already in; card not in.
    CardIn,
    CardNotIn,
}

impl Refusal {
    // Its number in the table.
    pub fn number(self) -> u32
        ensures { result ≡ number_lem self }
    {
        match self {
            Refusal::Modulus => 1,
            Refusal::Participants => 2,
            Refusal::Rows => 3,
            Refusal::Columns => 4,
            Refusal::Length => 5,
            Refusal::Label => 6,
            Refusal::Entry => 7,
            Refusal::Outsider => 8,
            Refusal::NotBelowP => 9,
            Refusal::Threshold => 10,
            Refusal::SetClosed => 11,
            Refusal::NoDealing => 12,
            Refusal::NoRule => 13,
            Refusal::RuleOutsider => 14,
            Refusal::RuleRows => 15,
            Refusal::RuleColumns => 16,
            Refusal::FileLength => 17,
            Refusal::BlockCheck => 18,
            Refusal::BlockMark => 19,
            Refusal::FileRest => 20,
            Refusal::CardIn => 21,
            Refusal::CardNotIn => 22,
        }
    }
}

// A refusal is printed as its number.
impl fmt::Display for Refusal {
    fn fmt<W: fmt::Write>(&self, f: &mut fmt::Formatter<W>) -> fmt::Result {
        let k = self.number();
        write!(f, "{k}")
    }
}

// The four numbers of a scheme: the modulus, the participants, the rows, the columns.
#[derive(Clone, Copy)]
pub struct Shape {
    pub p: u32,
    pub n: u32,
    pub d: usize,
    pub e: usize,
}

// A scheme as a caller hands it over: any numbers, any lists.
#[derive(Clone, Copy)]
pub struct Scheme<'a> {
    pub shape: Shape,
    pub labels: &'a [u32],
    pub entries: &'a [u32],
}

// A scheme of which nothing is refused.
#[derive(Clone, Copy)]
pub struct Checked<'a> {
    pub shape: Shape,
    pub labels: &'a [u32],
    pub entries: &'a [u32],
    ghost scheme: { IsScheme shape labels.now entries.now },
    ghost valid: { Valid shape labels.now entries.now },
}

pub fn between(lo: usize, hi: usize, x: usize) -> bool
    ensures { result ≡ within lo hi x }
{
    lo <= x && x <= hi
}

fn all_within(hi: u32, xs: &[u32]) -> bool
    ensures { result ≡ each (within 1 hi) xs.now }
{
    xs.iter().all(|x| between(1, hi as usize, *x as usize))
}

pub fn all_below(p: u32, xs: &[u32]) -> bool
    ensures { result ≡ each_below p xs.now }
{
    xs.iter().all(|x| *x < p)
}

// Refusals 1 to 4.
#[tactic(auto, unfolding(crate::specs::Refusal::numbers_refusal_lem))]
pub fn numbers_refusal(s: Shape) -> Result<(), Refusal>
    ensures { result ≡ numbers_refusal_lem s }
{
    if !residue::is_modulus(s.p) {
        return Err(Refusal::Modulus);
    }
    if !between(1, 16, s.n as usize) {
        return Err(Refusal::Participants);
    }
    if !between(1, 32, s.d) {
        return Err(Refusal::Rows);
    }
    if !between(1, 12, s.e) {
        return Err(Refusal::Columns);
    }
    Ok(())
}

// Refusals 6 and 7.
#[tactic(auto, unfolding(crate::specs::Refusal::content_refusal_lem))]
fn content_refusal(p: u32, n: u32, labels: &[u32], entries: &[u32]) -> Result<(), Refusal>
    ensures { result ≡ content_refusal_lem p n labels.now entries.now }
{
    if !all_within(n, labels) {
        return Err(Refusal::Label);
    }
    if !all_below(p, entries) {
        return Err(Refusal::Entry);
    }
    Ok(())
}

impl<'a> Scheme<'a> {
    // What every call on a scheme refuses up to 7; `fits` says whether the call's own lists have their lengths.
    #[tactic(auto, using(crate::proofs::Refusals::rows_few), unfolding(crate::specs::Refusal::refusal_of))]
    pub fn refusal(self, fits: bool) -> Result<(), Refusal>
        ensures { result ≡ refusal_of self.entry.shape self.entry.labels.now self.entry.entries.now fits (Ok tt) }
    {
        let s = self.shape;
        numbers_refusal(s)?;
        if self.labels.len() != s.d || self.entries.len() != s.d * s.e || !fits {
            return Err(Refusal::Length);
        }
        content_refusal(s.p, s.n, self.labels, self.entries)
    }

    // The scheme checked; `fits` as above.
    #[tactic(auto, using(crate::proofs::Refusals::valid_fits, crate::proofs::Refusals::valid, crate::proofs::Refusals::checked_scheme))]
    pub fn checked(self, fits: bool) -> Result<Checked<'a>, Refusal>
        ensures refusal { refused result ≡ refusal_of self.entry.shape self.entry.labels.now self.entry.entries.now fits (Ok tt) }
        ensures same { IfOk result (λ c. (c.shape ≡ self.entry.shape) × (c.labels.now ≡ self.entry.labels.now)
            × (c.entries.now ≡ self.entry.entries.now)) }
        ensures fits { IfOk result (λ c. fits ≡ true) }
    {
        self.refusal(fits)?;
        Ok(Checked {
            shape: self.shape,
            labels: self.labels,
            entries: self.entries,
        })
    }
}

// Checks a scheme. Wrong answers that the contract rules out: done for a modulus that is not in the table; 6 where an entry is not below p
// and all labels are right.
pub fn check(scheme: Scheme<'_>) -> Result<(), Refusal>
    ensures { result ≡ check_refusal scheme.entry.shape scheme.entry.labels.now scheme.entry.entries.now }
{
    scheme.refusal(true)
}
