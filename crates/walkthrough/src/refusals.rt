//! Every refusal once, by the call that returns it.
ghost use Rattle.std.specs.Prelude.{◌≡◌};

use crate::books::{Terms, release_new};
use feeding::feed::feed;
use keys::event::EventKind;
use keys::refusal::Refusal;
use keys::word::FlightWord;
use lenses::kind::KindLens;
use pages::line::Line;
use pages::page::page;
use records::reader::read;
use records::record::Record;
use records::writer::write;
use release::book::{Book, Refused};
use release::entry::Entry;
use sketch::sketch::Sketch;
use std::io;
use summaries::summary::Summary;
use tally::tally::Tally;
use tree::cell::Cell;

/// Prints what was asked for, and the number of its refusal.
fn show(rt: &impl Print, asked: &str, refusal: Option<Refusal>) -> io::Result<()> {
    match refusal {
        Some(refusal) => println!(rt; "refused with {}: {asked}", refusal.number()),
        None => println!(rt; "not refused: {asked}"),
    }
}

/// A sketch of so many flight words in three cells for each order.
fn sketch_refused(k: u32) -> Option<Refusal> {
    let mut keys = [Cell::Blank; 3];
    let mut ranks = [Cell::Blank; 3];
    match Sketch::<FlightWord>::make(k, &mut keys, &mut ranks) {
        Ok(_) => None,
        Err(not_made) => Some(not_made.refusal),
    }
}

fn read_refused(input: &[u8]) -> Option<Refusal> {
    match read(input) {
        Ok(_) => None,
        Err(fault) => Some(Refusal::from(fault)),
    }
}

/// A record of an event kind alone, in so many bytes.
fn write_refused(kind: u8, output: &mut [u8]) -> Option<Refusal> {
    let given = Record {
        time: None,
        kind: Some(kind),
        console: None,
        source: None,
        flight: None,
    };
    write(&given, output).err()
}

fn show_made(rt: &impl Print) -> io::Result<()> {
    show(rt, "a sketch of 1 key", sketch_refused(1))?;
    show(rt, "a sketch of 4 keys in 3 cells", sketch_refused(4))
}

fn show_read(rt: &impl Print) -> io::Result<()> {
    show(rt, "reading a record with no field", read_refused(b"\x00"))?;
    show(
        rt,
        "reading a record that is cut off",
        read_refused(b"\x10\x03KL"),
    )?;
    show(rt, "reading an event kind of 64", read_refused(b"\x02\x40"))?;
    show(
        rt,
        "writing an event kind of 64",
        write_refused(64, &mut [0; 20]),
    )
}

/// A fault that feeding comes to, with its place.
fn show_torn(rt: &impl Print, tally: &mut Tally) -> io::Result<()> {
    match feed(tally, &KindLens, b"\x02\x01\x02\x40") {
        Ok(_) => println!(rt; "not refused: feeding"),
        Err(fault) => println!(rt;
            "refused with {}: feeding a log, at record {}, byte {}",
            fault.number(),
            fault.index,
            fault.offset
        ),
    }
}

fn show_taken(rt: &impl Print, tally: &mut Tally) -> io::Result<()> {
    if let Ok(kind) = EventKind::try_from(2) {
        let refusal = tally.take(kind).err();
        show(rt, "taking the event kind 2 by a tally of 2", refusal)?;
    }
    println!(rt; "refused with 7: a take after 4,294,967,295 entries, which is not tried here")
}

/// A page at a limit, in an output of so many lines.
fn show_pages(rt: &impl Print, tally: &Tally, key: EventKind) -> io::Result<()> {
    let unwritten = Line {
        key,
        count: 0,
        upper: 0,
    };
    let low = page(tally, 0, &mut [unwritten; 2]).err();
    show(rt, "a page at the limit 0", low)?;
    let short = page(tally, 1, &mut [unwritten; 1]).err();
    show(rt, "a page of 2 keys in 1 line", short)
}

/// A second permit of a book with a limit of 1, and a permit that is handed back to another book.
fn permits_refused() -> (Refusal, Refusal) {
    let Ok(mut own) = Book::make(7, 1) else {
        unreachable!()
    };
    let Ok(mut other) = Book::make(8, 1) else {
        unreachable!()
    };
    let Ok(permit) = own.issue() else {
        unreachable!()
    };
    let Err(used_up) = own.issue() else {
        unreachable!()
    };
    let Err(Refused { refusal, permit }) = other.hand_back(permit) else {
        unreachable!()
    };
    let _ = own.hand_back(permit);
    (used_up, refusal)
}

fn show_permits(rt: &impl Print) -> io::Result<()> {
    let (used_up, foreign) = permits_refused();
    show(
        rt,
        "a second permit of a book with the limit 1",
        Some(used_up),
    )?;
    show(
        rt,
        "handing back a permit of book 7 to book 8",
        Some(foreign),
    )
}

/// Releases with a wrong number of draws, a draw and a threshold out of range, and a short output.
fn releases_refused(tally: &Tally, book: &mut Book, key: EventKind) -> [Option<Refusal>; 4]
    requires { book.old.out ≡ 0 }
    ensures { book.new.out ≡ 0 }
{
    let right = Terms {
        shared: 0,
        threshold: 1,
    };
    let low = Terms {
        shared: 0,
        threshold: 0,
    };
    let mut output = [Entry { key, value: 0 }; 2];
    let one = release_new(tally, book, right, &mut [0; 1], &mut output).err();
    let two = release_new(tally, book, right, &mut [0, 1_073_741_825], &mut output).err();
    let three = release_new(tally, book, low, &mut [0; 2], &mut output).err();
    let four = release_new(tally, book, right, &mut [0; 2], &mut output[..1]).err();
    [one, two, three, four]
}

fn show_releases(rt: &impl Print, tally: &Tally, key: EventKind) -> io::Result<()> {
    let Ok(mut book) = Book::make(7, 1) else {
        unreachable!()
    };
    let [count, range, threshold, output] = releases_refused(tally, &mut book, key);
    show(rt, "a release for 2 keys by 1 draw", count)?;
    show(rt, "a release by a draw of 1,073,741,825", range)?;
    show(rt, "a release at the threshold 0", threshold)?;
    show(rt, "a release of 2 keys to an output of 1 entry", output)
}

/// Prints a line for each refusal: its number, and what was asked for.
pub fn show_refusals(rt: &impl Print) -> io::Result<()> {
    let (Ok(mut tally), Ok(key)) = (Tally::make(2), EventKind::try_from(0)) else {
        unreachable!()
    };
    show_made(rt)?;
    show_read(rt)?;
    show_torn(rt, &mut tally)?;
    show_taken(rt, &mut tally)?;
    show_pages(rt, &tally, key)?;
    show_permits(rt)?;
    show_releases(rt, &tally, key)?;
    show(
        rt,
        "writing a record of 2 bytes to 1 byte",
        write_refused(1, &mut [0; 1]),
    )
}
