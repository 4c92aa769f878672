//! The same calls made twice: in one run, by `work`, and one by one. The books of a run are let go before anything is
//! printed, since a print that fails would let them go at once.
ghost use Rattle.std.specs.Prelude.{◌≡◌};

use crate::answers::show_lines;
use crate::books::{
    BookFacts, Terms, give_back, release_new, show_books, show_written, some_entry,
};
use crate::calls::show_answers;
use crate::sketches::{CELLS, KEYS, some_line};
use feeding::feed::feed;
use keys::refusal::Refusal;
use keys::word::FlightWord;
use lenses::flight::FlightLens;
use pages::line::Line;
use pages::page::page;
use release::book::{Book, Refused};
use release::entry::Entry;
use release::release::release;
use sketch::sketch::Sketch;
use std::io;
use summaries::summary::Summary;
use tree::cell::Cell;
use work::buffers::Buffers;
use work::call::{Answer, Call, Feeding, Releasing};
use work::run::work;

/// How many of the calls are no releases, how many are, and how many there are in all.
const ASKED: usize = 9;

const RELEASED: usize = 5;

const CALLS: usize = ASKED + RELEASED;

/// The limit of the page; on the log that the tests run this on it is l + 1.
const PAGE_LIMIT: u32 = 5;

/// How many draws are lent, and how many entries: each release has as many as the sketch has keys, and one is left over.
const LENT: usize = RELEASED * KEYS + 1;

/// The shared draw and the threshold of every release.
const TERMS: Terms = Terms {
    shared: 1,
    threshold: 6,
};

/// What calls answered, and what they left in the memory and the three books that they were lent.
#[derive(Drop)]
struct Outcome {
    answers: [Answer<FlightWord>; CALLS],
    lines: [Line<FlightWord>; KEYS],
    draws: [i32; LENT],
    entries: [Entry<FlightWord>; LENT],
    books: [BookFacts; 3],
}

/// Before any call is made.
fn no_outcome() -> Outcome {
    let mut draws = [0; LENT];
    for (draw, i) in draws.iter_mut().zip(0..) {
        *draw = i % 5 - 2;
    }
    Outcome {
        answers: [Answer::Place(None); CALLS],
        lines: [some_line(); KEYS],
        draws,
        entries: [some_entry(); LENT],
        books: [BookFacts {
            number: 0,
            limit: 0,
            out: 0,
            spent: 0,
        }; 3],
    }
}

/// A release by a permit of one book, made with another.
fn releasing<'a>(issuer: usize, book: usize) -> Call<'a, FlightWord, FlightLens> {
    Call::Release(Releasing {
        issuer,
        book,
        shared: TERMS.shared,
        draws: KEYS,
        threshold: TERMS.threshold,
        entries: KEYS,
    })
}

/// The calls. The second book has another number than the first, and the third the same; the first issues all permits.
fn calls<'a>(
    lens: &'a FlightLens,
    log: &'a [u8],
    often: FlightWord,
    once: FlightWord,
) -> [Call<'a, FlightWord, FlightLens>; CALLS] {
    [
        Call::Take(once),
        Call::Feed(Feeding { lens, log }),
        Call::Take(often),
        Call::Count(often),
        Call::Count(once),
        Call::Place(0),
        Call::Place(KEYS),
        Call::Facts,
        Call::Page {
            limit: PAGE_LIMIT,
            lines: KEYS,
        },
        releasing(0, 0),
        releasing(0, 1),
        releasing(0, 2),
        releasing(0, 0),
        releasing(0, 0),
    ]
}

/// Works a sketch by the calls, with three books beside.
fn work_with_books(
    sketch: &mut Sketch<'_, FlightWord>,
    calls: &[Call<'_, FlightWord, FlightLens>],
) -> Outcome {
    let mut outcome = no_outcome();
    let (Ok(first), Ok(second), Ok(third)) = (Book::make(7, 2), Book::make(8, 1), Book::make(7, 1))
    else {
        unreachable!()
    };
    let mut books = [first, second, third];
    let mut buffers = Buffers {
        lines: &mut outcome.lines,
        draws: &mut outcome.draws,
        lists: &mut outcome.entries,
    };
    let _ = work(
        sketch,
        &mut books,
        calls,
        &mut outcome.answers,
        &mut buffers,
    );
    let [first, second, third] = books;
    outcome.books = [
        BookFacts::of(&first),
        BookFacts::of(&second),
        BookFacts::of(&third),
    ];
    outcome
}

/// Makes the calls in one run of a fresh sketch.
fn in_one_run(calls: &[Call<'_, FlightWord, FlightLens>]) -> Outcome {
    let mut keys = [Cell::Blank; CELLS];
    let mut ranks = [Cell::Blank; CELLS];
    let Ok(mut sketch) = Sketch::make(KEYS as u32, &mut keys, &mut ranks) else {
        unreachable!()
    };
    work_with_books(&mut sketch, calls)
}

/// Makes the calls that are no releases.
fn ask(
    sketch: &mut Sketch<'_, FlightWord>,
    log: &[u8],
    often: FlightWord,
    once: FlightWord,
    lines: &mut [Line<FlightWord>],
) -> [Answer<FlightWord>; ASKED] {
    [
        Answer::Take(sketch.take(once)),
        Answer::Feed(feed(sketch, &FlightLens, log)),
        Answer::Take(sketch.take(often)),
        Answer::Count(sketch.count(&often)),
        Answer::Count(sketch.count(&once)),
        Answer::Place(sketch.place(0)),
        Answer::Place(sketch.place(KEYS)),
        Answer::Facts(sketch.facts()),
        Answer::Page(page(sketch, PAGE_LIMIT, lines)),
    ]
}

/// A release with a book that has no permit out, by a permit of another: the permit goes back to its book.
fn release_with(
    sketch: &Sketch<'_, FlightWord>,
    issuer: &mut Book,
    book: &mut Book,
    draws: &mut [i32],
    output: &mut [Entry<FlightWord>],
) -> Result<usize, Refusal>
    requires issuer { issuer.old.out ≡ 0 }
    requires book { book.old.out ≡ 0 }
    ensures issuer { issuer.new.out ≡ 0 }
    ensures book { book.new.out ≡ 0 }
{
    let permit = issuer.issue()?;
    let Terms { shared, threshold } = TERMS;
    match release(sketch, book, permit, shared, draws, threshold, output) {
        Ok(_) => unreachable!(),
        Err(Refused { refusal, permit }) => {
            give_back(issuer, permit);
            Err(refusal)
        }
    }
}

/// A release by a permit of the same book. A run zeroes the draws of a release also where no permit was issued for it.
fn release_own(
    sketch: &Sketch<'_, FlightWord>,
    book: &mut Book,
    draws: &mut [i32],
    output: &mut [Entry<FlightWord>],
) -> Result<usize, Refusal>
    requires { book.old.out ≡ 0 }
    ensures { book.new.out ≡ 0 }
{
    let answer = release_new(sketch, book, TERMS, draws, output);
    draws.fill(0);
    answer
}

/// Makes the releases.
fn release_all(
    sketch: &Sketch<'_, FlightWord>,
    draws: &mut [i32; LENT],
    entries: &mut [Entry<FlightWord>; LENT],
) -> ([Answer<FlightWord>; RELEASED], [BookFacts; 3]) {
    let (Ok(mut first), Ok(mut second), Ok(mut third)) = (
        Book::make(7, 2),
        Book::make(8, 1),
        Book::make(7, 1),
    ) else {
        unreachable!()
    };
    let answers = [
        release_own(sketch, &mut first, &mut draws[..4], &mut entries[..4]),
        release_with(
            sketch,
            &mut first,
            &mut second,
            &mut draws[4..8],
            &mut entries[4..8],
        ),
        release_with(
            sketch,
            &mut first,
            &mut third,
            &mut draws[8..12],
            &mut entries[8..12],
        ),
        release_own(sketch, &mut first, &mut draws[12..16], &mut entries[12..16]),
        release_own(sketch, &mut first, &mut draws[16..20], &mut entries[16..20]),
    ];
    let books = [
        BookFacts::of(&first),
        BookFacts::of(&second),
        BookFacts::of(&third),
    ];
    (answers.map(|answer| Answer::Release(Some(answer))), books)
}

/// Makes the calls of a fresh sketch one by one.
fn one_by_one(log: &[u8], often: FlightWord, once: FlightWord) -> Outcome {
    let mut keys = [Cell::Blank; CELLS];
    let mut ranks = [Cell::Blank; CELLS];
    let Ok(mut sketch) = Sketch::make(KEYS as u32, &mut keys, &mut ranks) else {
        unreachable!()
    };
    let mut outcome = no_outcome();
    let asked = ask(&mut sketch, log, often, once, &mut outcome.lines);
    let (released, books) = release_all(&sketch, &mut outcome.draws, &mut outcome.entries);
    let mut answers = [Answer::Place(None); CALLS];
    answers[..ASKED].copy_from_slice(&asked);
    answers[ASKED..].copy_from_slice(&released);
    outcome.answers = answers;
    outcome.books = books;
    outcome
}

/// What the calls wrote: the lines of the page, the entries of the lists, each at its place, and the draws.
fn show_memory(rt: &(impl Print + AllocGlobal), outcome: &Outcome) -> io::Result<()> {
    let unwritten = some_line();
    let lines = outcome
        .lines
        .iter()
        .filter(|line| **line != unwritten)
        .count();
    show_lines(rt, &outcome.lines, lines)?;
    show_written(rt, &outcome.entries, &[some_entry(); LENT])?;
    println!(rt; "draws afterwards: {:?}", outcome.draws)
}

/// Whether both came to the same.
fn show_same(rt: &impl Print, run: &Outcome, other: &Outcome) -> io::Result<()> {
    println!(rt;
        "one by one: the same answers: {}",
        run.answers == other.answers
    )?;
    println!(rt; "one by one: the same lines: {}", run.lines == other.lines)?;
    println!(rt; "one by one: the same draws: {}", run.draws == other.draws)?;
    println!(rt;
        "one by one: the same entries: {}",
        run.entries == other.entries
    )?;
    println!(rt; "one by one: the same books: {}", run.books == other.books)
}

/// Makes the calls in one run, and the same calls one by one.
pub fn show_runs(rt: &(impl Print + AllocGlobal), log: &[u8]) -> io::Result<()> {
    let (Ok(often), Ok(once)) = (
        FlightWord::try_from("KLM1023".as_bytes()),
        FlightWord::try_from("LOT7".as_bytes()),
    ) else {
        unreachable!()
    };
    let calls = calls(&FlightLens, log, often, once);
    println!(rt; "work: {CALLS} calls of a sketch of {KEYS} flight words, with 3 books beside")?;
    let Terms { shared, threshold } = TERMS;
    println!(rt;
        "draws: {:?}, shared draw {shared}, threshold {threshold}",
        no_outcome().draws
    )?;
    let run = in_one_run(&calls);
    show_answers(rt, &calls, &run.answers)?;
    show_memory(rt, &run)?;
    show_books(rt, &run.books)?;
    show_same(rt, &run, &one_by_one(log, often, once))
}
