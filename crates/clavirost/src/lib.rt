// The library's surface for C and Rust: each call as a function whose name begins with clavirost_. A list is a pointer and a length; a
// number lent for a result is a pointer. A refused call leaves every lent list and number as it was. include/clavirost.h says what each
// call answers. The contracts rule out what those of the wrapped calls do, an answer under another's number, and a result that is not left.

#![tactic(auto)]

ghost use Rattle.std.specs.Prelude.{◌≡◌, length, Ok};
ghost use Rattle.scheme.specs.Tests.{unless, or_else};
ghost use Rattle.scheme.specs.Refusal.{check_refusal, numbers_refusal_lem};
ghost use Rattle.clavirost.specs.Numbers.{answer_number, ask_number_lem, product_number_lem, threshold_number, after, set_after};
ghost use Rattle.clavirost.specs.Told.{shape_of, DealTold, AskTold, JoinTold, ProductTold, ThresholdTold};
ghost use Rattle.clavirost.specs.Told.{WriteTold, LineTold, RuleTold, ReadTold, PartTold};
ghost use Rattle.clavirost.specs.Places.{places_right_lem, panel_of_lem, MadeSays, PanelTold, PutTold, TakeTold, CodeTold, FreshTold};

use ask::Verdict as Asked;
use panel::{Panel, Told};
use product::Verdict as Product;
use scheme::{Refusal, Scheme, Shape};

// Open, and yes.
const YES: u32 = 100;

// Closed, and no.
const NO: u32 = 101;

// A scheme as C hands it over.
macro_rules! handed {
    ($p:expr, $n:expr, $d:expr, $e:expr, $labels:expr, $entries:expr) => {
        Scheme {
            shape: Shape {
                p: $p,
                n: $n,
                d: $d,
                e: $e,
            },
            labels: $labels,
            entries: $entries,
        }
    };
}

fn outcome_number(a: Result<(), Refusal>) -> u32
    ensures { result ≡ answer_number a }
{
    match a {
        Ok(()) => 0,
        Err(k) => k.number(),
    }
}

fn ask_number(a: Result<Asked, Refusal>) -> u32
    ensures { result ≡ ask_number_lem a }
{
    match a {
        Ok(Asked::Open) => YES,
        Ok(Asked::Closed) => NO,
        Err(k) => k.number(),
    }
}

fn product_number(a: Result<Product, Refusal>) -> u32
    ensures { result ≡ product_number_lem a }
{
    match a {
        Ok(Product::Yes) => YES,
        Ok(Product::No) => NO,
        Err(k) => k.number(),
    }
}

// The number of an answer that has a value where it is no refusal: the value is left in its place then.
fn leave<T: Copy + Drop>(a: Result<T, Refusal>, place: &mut T) -> u32
    ensures { (result ≡ answer_number a) × (place.new ≡ after a place.old) }
{
    match a {
        Ok(value) => {
            *place = value;
            0
        }
        Err(k) => k.number(),
    }
}

// The number of a threshold verdict: the first set that breaks it, where there is one, is left in `set`.
fn leave_set(a: Result<Option<u32>, Refusal>, set: &mut u32) -> u32
    ensures { (result ≡ threshold_number a) × (set.new ≡ set_after a set.old) }
{
    match a {
        Ok(None) => YES,
        Ok(Some(first)) => {
            *set = first;
            NO
        }
        Err(k) => k.number(),
    }
}

// Checks a scheme: 0, or its refusal.
#[unsafe(no_mangle)]
pub extern "C" fn clavirost_check(
    p: u32,
    n: u32,
    d: usize,
    e: usize,
    labels: &[u32],
    entries: &[u32],
) -> u32
    ensures { result ≡ answer_number (check_refusal (shape_of p n d e) labels.now entries.now) }
{
    let a = scheme::check(handed!(p, n, d, e, labels, entries));
    outcome_number(a)
}

// Deals a secret: the shares are left in `shares`.
#[unsafe(no_mangle)]
pub extern "C" fn clavirost_deal(
    p: u32,
    n: u32,
    d: usize,
    e: usize,
    labels: &[u32],
    entries: &[u32],
    secret: u32,
    randoms: &[u32],
    shares: &mut [u32],
) -> u32
    ensures { DealTold (shape_of p n d e) labels.now entries.now secret
        randoms.now shares.old result shares.new }
{
    let a = deal::deal(
        handed!(p, n, d, e, labels, entries),
        secret,
        randoms,
        shares,
    );
    outcome_number(a)
}

// Is the set open? After the call r holds the vector of an open set, z the witness of a closed one; the other list stays.
#[unsafe(no_mangle)]
pub extern "C" fn clavirost_ask(
    p: u32,
    n: u32,
    d: usize,
    e: usize,
    labels: &[u32],
    entries: &[u32],
    set: u32,
    r: &mut [u32],
    z: &mut [u32],
) -> u32
    ensures { AskTold (shape_of p n d e) labels.now entries.now set
        r.old z.old result r.new z.new }
{
    let a = ask::ask(handed!(p, n, d, e, labels, entries), set, r, z);
    ask_number(a)
}

// Joins the shares of a set: the code is left in `code`.
#[unsafe(no_mangle)]
pub extern "C" fn clavirost_join(
    p: u32,
    n: u32,
    d: usize,
    e: usize,
    labels: &[u32],
    entries: &[u32],
    set: u32,
    shares: &[u32],
    code: &mut u32,
) -> u32
    ensures { JoinTold (shape_of p n d e) labels.now entries.now set
        shares.now code.old result code.new }
{
    let a = join::join(handed!(p, n, d, e, labels, entries), set, shares);
    leave(a, code)
}

// Has the scheme the product property? After the call r holds the vector where it has, w the witness where not; the other list stays.
#[unsafe(no_mangle)]
pub extern "C" fn clavirost_product(
    p: u32,
    n: u32,
    d: usize,
    e: usize,
    labels: &[u32],
    entries: &[u32],
    r: &mut [u32],
    w: &mut [u32],
) -> u32
    ensures { ProductTold (shape_of p n d e) labels.now entries.now
        r.old w.old result r.new w.new }
{
    let a = product::product(handed!(p, n, d, e, labels, entries), r, w);
    product_number(a)
}

// Is the scheme one with threshold t? The first set that breaks it is left in `set` where it is not.
#[unsafe(no_mangle)]
pub extern "C" fn clavirost_threshold(
    p: u32,
    n: u32,
    d: usize,
    e: usize,
    labels: &[u32],
    entries: &[u32],
    t: u32,
    set: &mut u32,
) -> u32
    ensures { ThresholdTold (shape_of p n d e) labels.now entries.now t
        set.old result set.new }
{
    let a = threshold::threshold(handed!(p, n, d, e, labels, entries), t);
    leave_set(a, set)
}

// Makes the scheme of a written rule: its rows and columns are left in `d` and `e`, its labels and entries in the first places of
// the lists.
#[unsafe(no_mangle)]
pub extern "C" fn clavirost_rule(
    p: u32,
    n: u32,
    text: &[u8],
    labels: &mut [u32],
    entries: &mut [u32],
    d: &mut usize,
    e: &mut usize,
) -> u32
    ensures { RuleTold p n text.now labels.old entries.old d.old e.old result
        labels.new entries.new d.new e.new }
{
    let a = rule::build(p, n, text, labels, entries);
    match a {
        Ok(s) => {
            *d = s.d;
            *e = s.e;
            0
        }
        Err(k) => k.number(),
    }
}

// Writes a scheme file.
#[unsafe(no_mangle)]
pub extern "C" fn clavirost_write(
    p: u32,
    n: u32,
    d: usize,
    e: usize,
    labels: &[u32],
    entries: &[u32],
    file: &mut [u8],
) -> u32
    ensures { WriteTold (shape_of p n d e) labels.now entries.now file.old result file.new }
{
    let a = writing::write(handed!(p, n, d, e, labels, entries), file);
    outcome_number(a)
}

// Reads a scheme file: its four numbers are left, its labels and entries in the first places of the lists.
#[unsafe(no_mangle)]
pub extern "C" fn clavirost_read(
    file: &[u8],
    labels: &mut [u32],
    entries: &mut [u32],
    p: &mut u32,
    n: &mut u32,
    d: &mut usize,
    e: &mut usize,
) -> u32
    ensures { ReadTold file.now labels.old entries.old
        (shape_of p.old n.old d.old e.old) result labels.new entries.new
        (shape_of p.new n.new d.new e.new) }
{
    let a = reading::read(file, labels, entries);
    match a {
        Err(k) => k.number(),
        Ok(s) => {
            *p = s.p;
            *n = s.n;
            *d = s.d;
            *e = s.e;
            0
        }
    }
}

// Prints the line of a set into 256 places: how many bytes it has is left in `size`.
#[unsafe(no_mangle)]
pub extern "C" fn clavirost_sheet_line(
    p: u32,
    n: u32,
    d: usize,
    e: usize,
    labels: &[u32],
    entries: &[u32],
    set: u32,
    out: &mut [u8],
    size: &mut usize,
) -> u32
    ensures { LineTold (shape_of p n d e) labels.now entries.now set out.old size.old result
        out.new size.new }
{
    let a = sheets::line(handed!(p, n, d, e, labels, entries), set, out);
    leave(a, size)
}

// Prints part k of the sheet of a file: how many bytes it has is left in `size`, 0 after the last part.
#[unsafe(no_mangle)]
pub extern "C" fn clavirost_sheet_part(file: &[u8], k: u32, out: &mut [u8], size: &mut usize) -> u32
    ensures { PartTold file.now k out.old size.old result out.new size.new }
{
    let a = sheets::part(file, k, out);
    leave(a, size)
}

fn places_right(labels: &[u32], entries: &[u32], stored: &[u32]) -> bool
    ensures { result ≡ places_right_lem labels.now entries.now stored.now }
{
    labels.len() == 32 && entries.len() == 384 && stored.len() == 32
}

// A list as an array.
fn array<const N: usize>(from: &[u32]) -> [u32; N]
    requires { length from.now ≡ N }
    ensures { result ≡ from.now }
{
    let mut own = [0; N];
    own.copy_from_slice(from);
    own
}

// 5, after 1 to 4, where the lists have not the panel's places.
fn places_refusal(s: Shape, labels: &[u32], entries: &[u32], stored: &[u32]) -> Result<(), Refusal>
    ensures { result ≡ or_else (numbers_refusal_lem s)
        (unless (places_right_lem labels.now entries.now stored.now) Refusal.Length) }
{
    scheme::numbers_refusal(s)?;
    if !places_right(labels, entries, stored) {
        return Err(Refusal::Length);
    }
    Ok(())
}

// The panel that C hands over.
fn panel_of(s: Shape, labels: &[u32], entries: &[u32], cards: u32, stored: &[u32]) -> Panel
    requires { (length labels.now ≡ 32) × (length entries.now ≡ 384) × (length stored.now ≡ 32) }
    ensures { result ≡ panel_of_lem s labels.now entries.now cards stored.now }
{
    Panel {
        p: s.p,
        n: s.n,
        d: s.d,
        e: s.e,
        cards,
        labels: array(labels),
        entries: array(entries),
        stored: array(stored),
    }
}

// What a call on the panel says, and the panel that it hands back.
fn hand_back(told: Told, cards: &mut u32, stored: &mut [u32]) -> u32
    requires { length stored.old ≡ 32 }
    ensures { PanelTold told result cards.new stored.new }
{
    let said = told.said;
    let after = told.panel;
    stored.copy_from_slice(&after.stored);
    *cards = after.cards;
    outcome_number(said)
}

// The lists of a panel, laid over the places that C lends for them.
fn hand_over(a: Panel, labels: &mut [u32], entries: &mut [u32], stored: &mut [u32])
    requires { (length labels.old ≡ 32) × (length entries.old ≡ 384) × (length stored.old ≡ 32) }
    ensures { (labels.new ≡ a.labels) × (entries.new ≡ a.entries) × (stored.new ≡ a.stored) }
{
    labels.copy_from_slice(&a.labels);
    entries.copy_from_slice(&a.entries);
    stored.copy_from_slice(&a.stored);
}

// A fresh panel, where the lists lent for it have its places.
#[tactic(auto, using(crate::proofs::Handing::made_refused, crate::proofs::Handing::made_says))]
fn made(given: Scheme<'_>, fits: bool) -> Result<Panel, Refusal>
    ensures { MadeSays given.entry.shape given.entry.labels.now given.entry.entries.now fits result }
{
    given.refusal(fits)?;
    Ok(panel::fresh(given).panel)
}

// Makes a panel with no card: its lists are left in its places.
#[unsafe(no_mangle)]
pub extern "C" fn clavirost_panel_new(
    p: u32,
    n: u32,
    d: usize,
    e: usize,
    labels: &[u32],
    entries: &[u32],
    panel_labels: &mut [u32],
    panel_entries: &mut [u32],
    cards: &mut u32,
    stored: &mut [u32],
) -> u32
    ensures { FreshTold (shape_of p n d e) labels.now entries.now
        panel_labels.old panel_entries.old cards.old stored.old result
        panel_labels.new panel_entries.new cards.new stored.new }
{
    let given = handed!(p, n, d, e, labels, entries);
    let fits = places_right(panel_labels, panel_entries, stored);
    match made(given, fits) {
        Ok(a) => {
            hand_over(a, panel_labels, panel_entries, stored);
            *cards = 0;
            0
        }
        Err(k) => k.number(),
    }
}

// Puts a participant's card in.
#[unsafe(no_mangle)]
pub extern "C" fn clavirost_panel_put(
    p: u32,
    n: u32,
    d: usize,
    e: usize,
    labels: &[u32],
    entries: &[u32],
    cards: &mut u32,
    stored: &mut [u32],
    who: u32,
    shares: &[u32],
) -> u32
    ensures { PutTold
        (panel_of_lem (shape_of p n d e) labels.now entries.now cards.old stored.old)
        who shares.now result cards.new stored.new }
{
    let s = Shape { p, n, d, e };
    if let Err(k) = places_refusal(s, labels, entries, stored) {
        return k.number();
    }
    let a = panel_of(s, labels, entries, *cards, stored);
    hand_back(a.put(who, shares), cards, stored)
}

// Takes a participant's card out.
#[unsafe(no_mangle)]
pub extern "C" fn clavirost_panel_take(
    p: u32,
    n: u32,
    d: usize,
    e: usize,
    labels: &[u32],
    entries: &[u32],
    cards: &mut u32,
    stored: &mut [u32],
    who: u32,
) -> u32
    ensures { TakeTold
        (panel_of_lem (shape_of p n d e) labels.now entries.now cards.old stored.old)
        who result cards.new stored.new }
{
    let s = Shape { p, n, d, e };
    if let Err(k) = places_refusal(s, labels, entries, stored) {
        return k.number();
    }
    let a = panel_of(s, labels, entries, *cards, stored);
    hand_back(a.take(who), cards, stored)
}

// Asks for the code of the cards that are in: it is left in `code`.
#[unsafe(no_mangle)]
pub extern "C" fn clavirost_panel_code(
    p: u32,
    n: u32,
    d: usize,
    e: usize,
    labels: &[u32],
    entries: &[u32],
    cards: u32,
    stored: &[u32],
    code: &mut u32,
) -> u32
    ensures { CodeTold (panel_of_lem (shape_of p n d e) labels.now entries.now cards stored.now)
        code.old result code.new }
{
    let s = Shape { p, n, d, e };
    if let Err(k) = places_refusal(s, labels, entries, stored) {
        return k.number();
    }
    let a = panel_of(s, labels, entries, cards, stored);
    leave(a.code().said, code)
}
