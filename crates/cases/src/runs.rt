//! Runs of what `walkthrough` does not make: each answer of a take, several pages, faults of logs, two lenses, releases
//! refused, fewer answers than calls.
ghost use Rattle.std.specs.Prelude.{◌≡◌};
ghost use Rattle.work.specs.Permits.{all_out};

use feeding::fault::{Cause, FeedFault};
use feeding::feed::Fed;
use keys::event::EventKind;
use keys::prefix::Prefix;
use keys::refusal::Refusal;
use keys::word::FlightWord;
use lenses::flight::FlightLens;
use lenses::kind::KindLens;
use lenses::lens::Lens;
use lenses::prefix::PrefixLens;
use pages::line::Line;
use records::fault::ReadFault;
use release::book::Book;
use release::entry::Entry;
use sketch::sketch::Sketch;
use std::process::Abort;
use std::test::Fail;
use summaries::answers::{Facts, Taken};
use summaries::summary::Summary;
use tally::tally::Tally;
use tree::cell::Cell;
use work::buffers::Buffers;
use work::call::{Answer, Call, Feeding, Releasing};
use work::run::work;

/// Works a summary by calls, and holds each answer against the one that it should have.
fn answers_right<S: Summary, L: Lens<Key = S::Key>>(
    rt: &impl Abort,
    summary: &mut S,
    books: &mut [Book],
    calls: &[Call<'_, S::Key, L>],
    wanted: &[Answer<S::Key>],
    answers: &mut [Answer<S::Key>],
    buffers: &mut Buffers<'_, S::Key>,
)
    ensures { all_out books.new ≡ all_out books.old }
{
    let worked = work(summary, books, calls, answers, buffers);
    assert_eq!(rt; worked, wanted.len());
    for (j, answer) in wanted.iter().enumerate() {
        assert!(rt; answers.get(j) == Some(answer), "call {j}");
    }
}

/// The same without books, lines, draws or lists.
fn answers_right_alone<S: Summary, L: Lens<Key = S::Key>>(
    rt: &impl Abort,
    summary: &mut S,
    calls: &[Call<'_, S::Key, L>],
    wanted: &[Answer<S::Key>],
    answers: &mut [Answer<S::Key>],
) {
    let mut buffers = Buffers {
        lines: &mut [],
        draws: &mut [],
        lists: &mut [],
    };
    answers_right(rt, summary, &mut [], calls, wanted, answers, &mut buffers);
}

fn feed_call<'a, K, L>(lens: &'a L, log: &'a [u8]) -> Call<'a, K, L> {
    Call::Feed(Feeding { lens, log })
}

/// The answer to a log that was read to its end.
fn fed<K>(read: usize, absent: usize, taken: usize) -> Answer<K> {
    Answer::Feed(Ok(Fed {
        read,
        absent,
        passed_over: 0,
        taken,
    }))
}

/// The answer to a log with a fault.
fn torn<K>(fault: ReadFault, index: usize, offset: usize) -> Answer<K> {
    Answer::Feed(Err(FeedFault {
        cause: Cause::Reader(fault),
        index,
        offset,
    }))
}

fn flight_word(bytes: &[u8]) -> Result<FlightWord, Refusal> {
    FlightWord::try_from(bytes)
}

/// Two keys, of A, B, C, C, A and A: each answer that a take has.
#[test]
fn takes(rt: HostRuntime) -> Result<(), Fail> {
    let (a, b, c) = (flight_word(b"A")?, flight_word(b"B")?, flight_word(b"C")?);
    let mut keys = [Cell::Blank; 2];
    let mut ranks = [Cell::Blank; 2];
    let Ok(mut sketch) = Sketch::make(2, &mut keys, &mut ranks) else {
        panic!(rt; "not made");
    };
    let calls: [Call<'_, _, FlightLens>; 8] = [
        Call::Take(a),
        Call::Take(b),
        Call::Take(c),
        Call::Take(c),
        Call::Take(a),
        Call::Take(a),
        Call::Count(b),
        Call::Facts,
    ];
    let wanted = [
        Answer::Take(Ok(Taken::Replaced)),
        Answer::Take(Ok(Taken::Replaced)),
        Answer::Take(Ok(Taken::Lowered)),
        Answer::Take(Ok(Taken::Replaced)),
        Answer::Take(Ok(Taken::Replaced)),
        Answer::Take(Ok(Taken::Raised)),
        Answer::Count(None),
        Answer::Facts(Facts { k: 2, n: 6, l: 1 }),
    ];
    let mut answers = [Answer::Place(None); 8];
    answers_right_alone(&rt, &mut sketch, &calls, &wanted, &mut answers);
    Ok(())
}

/// Each page has its own lines, those that are refused too.
#[test]
fn pages(rt: HostRuntime) -> Result<(), Fail> {
    let (none, one) = (EventKind::try_from(0)?, EventKind::try_from(1)?);
    let mut tally = Tally::make(2)?;
    let calls: [Call<'_, _, KindLens>; 6] = [
        Call::Take(one),
        Call::Page { limit: 1, lines: 3 },
        Call::Page { limit: 0, lines: 2 },
        Call::Page { limit: 1, lines: 1 },
        Call::Take(none),
        Call::Page { limit: 1, lines: 3 },
    ];
    let wanted = [
        Answer::Take(Ok(Taken::Raised)),
        Answer::Page(Ok(1)),
        Answer::Page(Err(Refusal::LowLimit)),
        Answer::Page(Err(Refusal::ShortOutput)),
        Answer::Take(Ok(Taken::Raised)),
        Answer::Page(Ok(2)),
    ];
    let line = |key: EventKind, count: u32| Line {
        key,
        count,
        upper: count,
    };
    let mut lines = [line(none, 9); 10];
    let mut shown = lines;
    shown[0] = line(one, 1);
    shown[6] = line(none, 1);
    shown[7] = line(one, 1);
    let mut answers = [Answer::Place(None); 6];
    let mut buffers = Buffers {
        lines: &mut lines,
        draws: &mut [],
        lists: &mut [],
    };
    answers_right(
        &rt,
        &mut tally,
        &mut [],
        &calls,
        &wanted,
        &mut answers,
        &mut buffers,
    );
    assert_eq!(rt; lines, shown);
    Ok(())
}

/// What was taken before a fault stays, and the run goes on.
#[test]
fn torn_logs(rt: HostRuntime) -> Result<(), Fail> {
    let one = EventKind::try_from(1)?;
    let mut tally = Tally::make(2)?;
    let calls = [
        feed_call(&KindLens, b"\x02\x01\x02\x00\x20"),
        Call::Count(one),
        feed_call(&KindLens, b"\x02\x01\x01\x00"),
        feed_call(&KindLens, b"\x10\x01A\x02\x00\x06\x01\xFB"),
        Call::Take(one),
        Call::Facts,
    ];
    let wanted = [
        torn(ReadFault::Map(0), 2, 4),
        Answer::Count(Some(1)),
        torn(ReadFault::CutOff(2), 1, 4),
        torn(ReadFault::Field(2), 2, 7),
        Answer::Take(Ok(Taken::Raised)),
        Answer::Facts(Facts { k: 2, n: 5, l: 0 }),
    ];
    let mut answers = [Answer::Place(None); 6];
    answers_right_alone(&rt, &mut tally, &calls, &wanted, &mut answers);
    Ok(())
}

/// Two lenses of one type give keys of two lengths.
#[test]
fn two_lenses(rt: HostRuntime) -> Result<(), Fail> {
    let (eight, sixteen) = (PrefixLens::make(8)?, PrefixLens::make(16)?);
    assert_eq!(rt; (eight.bits(), sixteen.bits()), (8, 16));
    let (net, part) = (
        Prefix::make(0x0A00_0000, 8)?,
        Prefix::make(0x0A01_0000, 16)?,
    );
    let mut keys = [Cell::Blank; 3];
    let mut ranks = [Cell::Blank; 3];
    let Ok(mut sketch) = Sketch::make(3, &mut keys, &mut ranks) else {
        panic!(rt; "not made");
    };
    let log = b"\x08\x0A\x01\x02\x03\x08\x0A\x02\x00\x01\x02\x07";
    let calls = [
        feed_call(&eight, log),
        feed_call(&sixteen, log),
        Call::Count(net),
        Call::Count(part),
    ];
    let wanted = [
        fed(3, 1, 2),
        fed(3, 1, 2),
        Answer::Count(Some(2)),
        Answer::Count(Some(1)),
    ];
    let mut answers = [Answer::Place(None); 4];
    answers_right_alone(&rt, &mut sketch, &calls, &wanted, &mut answers);
    Ok(())
}

/// A refused release leaves its permit with its book, which has one alone, so each may be tried, and one accepted.
#[test]
fn releases_refused(rt: HostRuntime) -> Result<(), Fail> {
    let (none, one) = (EventKind::try_from(0)?, EventKind::try_from(1)?);
    let mut tally = Tally::make(2)?;
    let right = Releasing {
        issuer: 0,
        book: 0,
        shared: 1,
        draws: 2,
        threshold: 1,
        entries: 2,
    };
    let calls: [Call<'_, _, KindLens>; 5] = [
        Call::Release(Releasing { draws: 1, ..right }),
        Call::Release(Releasing {
            shared: i32::MIN,
            ..right
        }),
        Call::Release(Releasing {
            threshold: 0,
            ..right
        }),
        Call::Release(Releasing {
            entries: 1,
            ..right
        }),
        Call::Release(right),
    ];
    let wanted = [
        Answer::Release(Some(Err(Refusal::DrawCount))),
        Answer::Release(Some(Err(Refusal::DrawRange))),
        Answer::Release(Some(Err(Refusal::Threshold))),
        Answer::Release(Some(Err(Refusal::ShortOutput))),
        Answer::Release(Some(Ok(2))),
    ];
    let mut draws = [4; 10];
    let mut lists = [Entry { key: one, value: 9 }; 9];
    let mut answers = [Answer::Place(None); 5];
    let mut buffers = Buffers {
        lines: &mut [],
        draws: &mut draws,
        lists: &mut lists,
    };
    let mut books = [Book::make(7, 1)?];
    answers_right(
        &rt,
        &mut tally,
        &mut books,
        &calls,
        &wanted,
        &mut answers,
        &mut buffers,
    );
    let [book] = books;
    assert_eq!(rt;
        (book.out(), book.spent(), draws[8], draws[9]),
        (0, 1, 0, 4)
    );
    assert!(rt; lists[7].key == none && lists[7].value == 5 && lists[6].value == 9);
    Ok(())
}

/// As many calls are made as there are answers to record.
#[test]
fn fewer_answers(rt: HostRuntime) -> Result<(), Fail> {
    let one = EventKind::try_from(1)?;
    let mut tally = Tally::make(2)?;
    let calls: [Call<'_, _, KindLens>; 3] = [Call::Take(one), Call::Take(one), Call::Take(one)];
    let mut answers = [Answer::Place(None); 2];
    let mut buffers = Buffers {
        lines: &mut [],
        draws: &mut [],
        lists: &mut [],
    };
    for (given, room, made) in [(3, 0, 0), (0, 2, 0), (3, 2, 2), (1, 2, 1)] {
        let worked = work(
            &mut tally,
            &mut [],
            &calls[..given],
            &mut answers[..room],
            &mut buffers,
        );
        assert_eq!(rt; worked, made, "{given} calls, room for {room}");
    }
    assert_eq!(rt; tally.facts(), Facts { k: 2, n: 3, l: 0 });
    let taken = Answer::Take(Ok(Taken::Raised));
    assert!(rt; answers == [taken, taken]);
    Ok(())
}
