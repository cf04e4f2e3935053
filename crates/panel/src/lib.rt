// The card panel: a checked scheme, the cards that are in and their shares, all by value. Each call hands the panel back.

#![tactic(auto)]

ghost use Rattle.std.specs.Prelude.{◌≡◌, ◌≤◌, ◌-◌, ◌^◌, length, Ok, IfOk};
ghost use Rattle.scheme.specs.Tests.{within, refused};
ghost use Rattle.scheme.specs.Refusal.{numbers_refusal_lem};
ghost use Rattle.scheme.specs.Outcome.{over};
ghost use Rattle.panel.specs.Cards.{shape_of, labels_of, entries_of, stored_of, rows_of, laid, fresh_panel, blank_panel, put_refusal_lem, take_refusal_lem, put_in, taken_out};
ghost use Rattle.join.specs.Says.{JoinSays};
ghost use Rattle.panel.specs.Says.{FreshSays, CodeSays};
ghost use Rattle.panel.specs.Steps.{places_right_lem, lists_refusal_lem};

use scheme::{Checked, Refusal, Scheme, Shape};

// A panel's state. Of the labels and the stored shares the first d places are used, of the entries the first d times e.
#[derive(Clone, Copy)]
pub struct Panel {
    pub p: u32,
    pub n: u32,
    pub d: usize,
    pub e: usize,
    pub cards: u32,
    pub labels: [u32; 32],
    pub entries: [u32; 384],
    pub stored: [u32; 32],
}

// What making a panel, putting in or taking out answers, and the panel after it: document 01 hands the panel back beside a refusal too, so no
// Result of it.
#[derive(Clone, Copy)]
pub struct Told {
    pub said: Result<(), Refusal>,
    pub panel: Panel,
}

// What the panel answers when asked for the code, and the panel after it, which is handed back as above.
#[derive(Clone, Copy)]
pub struct Coded {
    pub said: Result<u32, Refusal>,
    pub panel: Panel,
}

// A panel's lists, of each as many places as are used.
#[derive(Clone, Copy)]
struct Lists<'a> {
    scheme: Scheme<'a>,
    stored: &'a [u32],
}

// How many rows the participant has.
fn count_rows(who: u32, labels: &[u32]) -> usize
    ensures { result ≡ rows_of who labels.now }
{
    labels.iter().filter(|label| **label == who).count()
}

// Lays the participant's shares at their rows.
fn lay(who: u32, labels: &[u32], shares: &[u32], stored: &mut [u32])
    requires labels_in_bounds { length labels.now ≤ length stored.old }
    requires shares_len { length shares.now ≡ rows_of who labels.now }
    ensures { stored.new ≡ laid who labels.now shares.now stored.old }
{
    let mut k = 0;
    for (i, label) in labels.iter().enumerate() {
        if *label == who {
            stored[i] = shares[k];
            k += 1;
        }
    }
}

// The number of the set of one participant.
fn mark(who: u32) -> u32
    requires { (1 ≤ who) × (who ≤ 16) }
    ensures { result ≡ 2 ^ (who - 1) }
{
    1u32 << (who - 1)
}

// Whether there are as many shares as the participant has rows; not asked of a participant outside 1 to n.
fn places_right(n: u32, who: u32, labels: &[u32], places: usize) -> bool
    ensures { result ≡ places_right_lem n who labels.now places }
{
    !scheme::between(1, n as usize, who as usize) || places == count_rows(who, labels)
}

// Refusals 1 to 9 of a participant's call on a panel with these parts; `fits` and `below` say of the call's own shares that they are as many as
// the participant has rows, and below p.
#[tactic(auto, using(scheme::proofs::Refusals::refusal_more))]
fn lists_refusal(
    scheme: Scheme<'_>,
    cards: u32,
    stored: &[u32],
    who: u32,
    fits: bool,
    below: bool,
) -> Result<(), Refusal>
    requires { length stored.now ≡ scheme.shape.d }
    ensures { result ≡ lists_refusal_lem scheme.entry.shape scheme.entry.labels.now scheme.entry.entries.now cards stored.now
        fits (within 1 scheme.entry.shape.n who) below (Ok tt) }
{
    let checked = scheme.checked(fits)?;
    let s = checked.shape;
    sets::set_refusal(s.n, cards)?;
    if !scheme::between(1, s.n as usize, who as usize) {
        return Err(Refusal::Outsider);
    }
    if !sets::read_below(s.p, cards, checked.labels, stored) || !below {
        return Err(Refusal::NotBelowP);
    }
    Ok(())
}

// A panel without cards, its lists copied.
fn filled(scheme: Checked<'_>) -> Panel
    ensures { result ≡ fresh_panel scheme.entry.shape scheme.entry.labels.now scheme.entry.entries.now }
{
    let s = scheme.shape;
    let mut labels = [0; 32];
    let mut entries = [0; 384];
    labels[..scheme.labels.len()].copy_from_slice(scheme.labels);
    entries[..scheme.entries.len()].copy_from_slice(scheme.entries);
    Panel {
        p: s.p,
        n: s.n,
        d: s.d,
        e: s.e,
        cards: 0,
        labels,
        entries,
        stored: [0; 32],
    }
}

// A panel of zeros.
fn blank() -> Panel
    ensures { result ≡ blank_panel }
{
    Panel {
        p: 0,
        n: 0,
        d: 0,
        e: 0,
        cards: 0,
        labels: [0; 32],
        entries: [0; 384],
        stored: [0; 32],
    }
}

// Makes a panel from a scheme; beside a refusal stands one of zeros. Wrong answers that the contract rules out: a panel with a scheme that
// checking refuses; one with a card in it.
pub fn fresh(scheme: Scheme<'_>) -> Told
    ensures { FreshSays scheme.entry.shape scheme.entry.labels.now scheme.entry.entries.now result }
{
    match scheme.checked(true) {
        Ok(checked) => Told {
            said: Ok(()),
            panel: filled(checked),
        },
        Err(why) => Told {
            said: Err(why),
            panel: blank(),
        },
    }
}

impl Panel {
    // The four numbers of its scheme.
    fn shape(&self) -> Shape
        ensures { result ≡ shape_of self.now }
    {
        Shape {
            p: self.p,
            n: self.n,
            d: self.d,
            e: self.e,
        }
    }

    // Its scheme and the shares that it stores, of each list as many places as are used, where refusals 1 to 4 are not given.
    #[tactic(auto, using(scheme::proofs::Refusals::rows_few, crate::proofs::Refused::rows_at_most))]
    fn lists(&self) -> Result<Lists<'_>, Refusal>
        ensures refusal { refused result ≡ numbers_refusal_lem (shape_of self.now) }
        ensures lists { IfOk result (λ l. (l.scheme.shape ≡ shape_of self.now) × (l.scheme.labels.now ≡ labels_of self.now)
            × (l.scheme.entries.now ≡ entries_of self.now) × (l.stored.now ≡ stored_of self.now)
            × (length l.stored.now ≡ self.now.d)) }
    {
        let shape = self.shape();
        scheme::numbers_refusal(shape)?;
        Ok(Lists {
            scheme: Scheme {
                shape,
                labels: &self.labels[0..self.d],
                entries: &self.entries[0..self.d * self.e],
            },
            stored: &self.stored[0..self.d],
        })
    }

    #[tactic(auto, using(crate::proofs::Refused::lists_on, crate::proofs::Refused::who_inside), unfolding(scheme::specs::Refusal::refusal_of))]
    fn put_refusal(&self, who: u32, shares: &[u32]) -> Result<(), Refusal>
        ensures { result ≡ put_refusal_lem self.now who shares.now }
    {
        let l = self.lists()?;
        let fits = places_right(self.n, who, l.scheme.labels, shares.len());
        let below = scheme::all_below(self.p, shares);
        lists_refusal(l.scheme, self.cards, l.stored, who, fits, below)?;
        if sets::in_set(self.cards, who) {
            return Err(Refusal::CardIn);
        }
        Ok(())
    }

    #[tactic(auto, using(crate::proofs::Refused::lists_on, crate::proofs::Refused::who_inside), unfolding(scheme::specs::Refusal::refusal_of))]
    fn take_refusal(&self, who: u32) -> Result<(), Refusal>
        ensures { result ≡ take_refusal_lem self.now who }
    {
        let l = self.lists()?;
        lists_refusal(l.scheme, self.cards, l.stored, who, true, true)?;
        if !sets::in_set(self.cards, who) {
            return Err(Refusal::CardNotIn);
        }
        Ok(())
    }

    // Puts a card in. Wrong answers that the contract rules out: a mark without the shares stored; shares stored at another participant's rows;
    // a changed panel beside a refusal.
    #[tactic(auto, using(crate::proofs::Refused::put_accepted))]
    pub fn put(self, who: u32, shares: &[u32]) -> Told
        ensures { result ≡ put_in self who shares.now }
    {
        if let Err(k) = self.put_refusal(who, shares) {
            return Told {
                said: Err(k),
                panel: self,
            };
        }
        let mut stored = self.stored;
        lay(who, &self.labels[0..self.d], shares, &mut stored);
        let cards = self.cards + mark(who);
        Told {
            said: Ok(()),
            panel: Panel {
                cards,
                stored,
                ..self
            },
        }
    }

    // Takes a card out. Wrong answers that the contract rules out: another card taken out too; a stored share changed.
    #[tactic(auto, using(crate::proofs::Refused::take_accepted))]
    pub fn take(self, who: u32) -> Told
        ensures { result ≡ taken_out self who }
    {
        if let Err(k) = self.take_refusal(who) {
            return Told {
                said: Err(k),
                panel: self,
            };
        }
        let cards = self.cards - mark(who);
        Told {
            said: Ok(()),
            panel: Panel { cards, ..self },
        }
    }

    // What joining says of the cards that are in.
    #[tactic(auto, using(crate::proofs::Refused::joined_early))]
    fn joined(&self) -> Result<u32, Refusal>
        ensures { JoinSays (shape_of self.now) (labels_of self.now) (entries_of self.now) self.now.cards (stored_of self.now) result }
    {
        let l = self.lists()?;
        join::join(l.scheme, self.cards, l.stored)
    }

    // The code of the cards that are in. Wrong answers that the contract rules out: an answer that hangs on a share whose card is out; a code
    // from a set that is closed.
    pub fn code(self) -> Coded
        ensures { CodeSays self result }
    {
        Coded {
            said: self.joined(),
            panel: self,
        }
    }
}
