// Request lines answered: standard input has a request a line, a call's name and its numbers. For each this writes a line: the name, the
// answer, and after ` | ` the numbers of each list lent for results, 61681 where the call left a place as it was. A line that is no request
// (an unknown name, numbers missing or left over, a number that is no decimal below 2^32, a byte above 255, a result list, a text or a file of
// more than 2,048 places, more than 16,384 numbers or 131,072 bytes) is answered by `? no request`.
//
// The numbers of a call; a list is its length and then its numbers, a scheme is p, n, d, e, the labels and the entries:
//   check      scheme
//   deal       scheme, secret, random numbers, length of the list for the shares
//   ask        scheme, set, length of r, length of z
//   join       scheme, set, shares
//   product    scheme, length of r, length of w
//   threshold  scheme, t
//   rule       p, n, text (a list of bytes), length of the list for the labels, length of the list for the entries
//   write      scheme, length of the list for the file
//   read       file (a list of bytes), length of the list for the labels, length of the list for the entries
//   panel_new  scheme
//   panel_put  scheme, cards (a set), stored shares, participant, shares
//   panel_take scheme, cards, stored shares, participant
//   panel_code scheme, cards, stored shares
//
// A panel has places of its own for 32 labels, 384 entries and 32 stored shares: the numbers given fill the first of them, 61681 stands in
// the others, and a longer list is no request. After panel_new, panel_put and panel_take the line has the cards and, after ` | `, the stored
// shares of the scheme's rows; a refused call of them has the refusal alone.
//
// The crate answers has the first six, answers_made the next three, answers_panel the last four. The file stdin has document 01's examples,
// refused calls of every kind, and then requests of the first seven calls from
//   python3 second/requests.py 7 3000 base | python3 second/trials.py --from-json
// the lines of rule after those of the six. Then come lines of write and read, for files that the second program writes and for such files
// changed: each refusal, pairs of faults that show their order, wrong lengths, and one byte changed at every 16th place of example L's file,
// with the old check and with the check made right. Then come the lines of
//   python3 tools/trial_requests.py second 9 40000
// which have each answer of each call ten times where the draws do, and last the largest threshold verdict. The file stdout is what the
// second program answers:
//   python3 second/trials.py < crates/trials/stdin

#![tactic(auto)]

use std::io;
use std::io::{BufRead, BufReader, BufWriter, Write};

const NEWLINE: u8 = 10;

// The most bytes and numbers that a request has.
const BYTES: usize = 131072;

const NUMBERS: usize = 16384;

// The most bytes that are read at once.
const PART: usize = 65536;

// The table of names.
fn request(to: &mut impl Write, name: &[u8], xs: &[u32]) -> io::Result<bool> {
    match name {
        b"check" => answers::check_line(to, xs),
        b"deal" => answers::deal_line(to, xs),
        b"ask" => answers::ask_line(to, xs),
        b"join" => answers::join_line(to, xs),
        b"product" => answers::product_line(to, xs),
        b"threshold" => answers::threshold_line(to, xs),
        b"rule" => answers_made::rule_line(to, xs),
        b"write" => answers_made::write_line(to, xs),
        b"read" => answers_made::read_line(to, xs),
        b"panel_new" => answers_panel::new_line(to, xs),
        b"panel_put" => answers_panel::put_line(to, xs),
        b"panel_take" => answers_panel::take_line(to, xs),
        b"panel_code" => answers_panel::code_line(to, xs),
        _ => Ok(false),
    }
}

// The answer to a line, without its end; whether the line is a request.
fn answer(to: &mut impl Write, line: &[u8], numbers: &mut [u32]) -> io::Result<bool> {
    if line.len() > BYTES {
        return Ok(false);
    }
    let Some(n) = requests::numbers(requests::text(line), numbers) else {
        return Ok(false);
    };
    request(to, requests::name(line), requests::first(numbers, n))
}

fn answer_line(to: &mut impl Write, line: &[u8], numbers: &mut [u32]) -> io::Result<()> {
    if !answer(to, line, numbers)? {
        show::text(to, b"? no request")?;
    }
    show::text(to, b"\n")
}

// More bytes of a line, without its end. Of a line with more bytes than a request has, one byte too many is kept.
fn keep(line: &mut Vec<u8>, more: &[u8]) -> io::Result<()> {
    let room = (BYTES + 1).saturating_sub(line.len());
    line.extend_from_slice(&more[..more.len().min(room)])?;
    Ok(())
}

// A part of the input taken in: the lines that end in it are answered, and what begins the next line is kept.
fn take_in(
    to: &mut impl Write,
    part: &[u8],
    line: &mut Vec<u8>,
    numbers: &mut [u32],
) -> io::Result<()> {
    for piece in part.split_inclusive(|byte| *byte == NEWLINE) {
        let Some(text) = piece.strip_suffix(&[NEWLINE]) else {
            return keep(line, piece);
        };
        keep(line, text)?;
        answer_line(to, line, numbers)?;
        line.clear();
    }
    Ok(())
}

// Answers all lines of the input; the answers to a part are out before more is read, and the first read that gives nothing ends the input. A
// proved loop has to end, and nothing says that the input does: it has more turns than any run uses up.
fn run(from: &mut impl BufRead, to: &mut impl Write, line: &mut Vec<u8>) -> io::Result<()> {
    let mut numbers = [0; NUMBERS];
    for _ in 0..u64::MAX {
        let part = from.fill_buf()?;
        let size = part.len();
        if size == 0 {
            break;
        }
        take_in(to, part, line, &mut numbers)?;
        from.consume(size);
        to.flush()?;
    }
    if !line.is_empty() {
        answer_line(to, line, &mut numbers)?;
    }
    to.flush()
}

// All memory that is taken from the heap is taken here, before anything is read: a line has its places from the start.
fn main(rt: HostRuntime) -> io::Result<()> {
    let mut line = Vec::with_capacity(rt.alloc(), BYTES + 1)?;
    let mut from = BufReader::with_capacity(rt.alloc(), PART, rt.reader())?;
    let mut to = BufWriter::new(rt.alloc(), io::writer(&rt))?;
    run(&mut from, &mut to, &mut line)
}
