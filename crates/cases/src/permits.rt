//! Permits that a release refused, used again. `release_table` has the lists, the ranges and the order of refusals.
ghost use Rattle.std.specs.Prelude.{◌≡◌};
ghost use Rattle.release.specs.Books.{one_spent};

use keys::event::EventKind;
use release::book::Book;
use release::entry::Entry;
use release::permit::Permit;
use release::release::release;
use std::process::Abort;
use std::test::Fail;
use summaries::summary::Summary;
use tally::tally::Tally;

/// A release that has to be accepted.
fn for_list(
    rt: &impl Abort,
    tally: &Tally,
    book: &mut Book,
    permit: Permit,
    output: &mut [Entry<EventKind>],
)
    ensures { book.new ≡ one_spent book.old }
{
    match release(tally, book, permit, 0, &mut [0, 0], 1, output) {
        Ok(entries) => assert_eq!(rt; entries, 1),
        Err(refused) => panic!(rt; "refused with {}", refused.refusal.number()),
    }
}

#[test]
fn limits(rt: HostRuntime) {
    for (limit, made) in [(0, false), (1, true), (1000, true), (1001, false)] {
        assert_eq!(rt; Book::make(7, limit).is_ok(), made, "at {limit}");
    }
}

/// Of two books with one number each takes the other's permits, while it has one out.
#[test]
fn books_of_one_number(rt: HostRuntime) -> Result<(), Fail> {
    let mut tally = Tally::make(2)?;
    tally.take(EventKind::try_from(1)?)?;
    let mut output = [Entry {
        key: EventKind::try_from(0)?,
        value: 9,
    }; 2];
    let mut book = Book::make(7, 1)?;
    let mut other = Book::make(7, 1)?;
    let own = book.issue()?;
    let permit = other.issue()?;
    for_list(&rt, &tally, &mut book, permit, &mut output);
    assert_eq!(rt; (book.out(), book.spent()), (0, 1));
    assert_eq!(rt; (other.out(), other.spent()), (1, 0));
    for_list(&rt, &tally, &mut other, own, &mut output);
    assert_eq!(rt; (other.out(), other.spent()), (0, 1));
    Ok(())
}

/// A permit of another book is refused before all else; refused by its own, it is still out, and good for a list.
#[test]
fn come_back(rt: HostRuntime) -> Result<(), Fail> {
    let mut tally = Tally::make(2)?;
    tally.take(EventKind::try_from(1)?)?;
    let unwritten = Entry {
        key: EventKind::try_from(0)?,
        value: 9,
    };
    let mut output = [unwritten; 3];
    let mut other = Book::make(8, 1)?;
    let mut book = Book::make(7, 1)?;
    let permit = book.issue()?;
    let mut draws = [i32::MAX, 5, 6];
    let foreign = match release(&tally, &mut other, permit, i32::MAX, &mut draws, 0, &mut []) {
        Ok(_) => panic!(rt; "taken"),
        Err(refused) => refused,
    };
    assert_eq!(rt; (foreign.refusal.number(), draws), (11, [0; 3]));
    let mut draws = [5, 6, 7];
    let refused = match release(
        &tally,
        &mut book,
        foreign.permit,
        0,
        &mut draws,
        1,
        &mut output,
    ) {
        Ok(_) => panic!(rt; "listed"),
        Err(refused) => refused,
    };
    assert_eq!(rt; (refused.refusal.number(), draws), (12, [0; 3]));
    assert_eq!(rt;
        (refused.permit.book(), book.out(), book.spent()),
        (7, 1, 0)
    );
    assert_eq!(rt; output, [unwritten; 3]);
    let entries = match release(
        &tally,
        &mut book,
        refused.permit,
        0,
        &mut [0, 4],
        2,
        &mut output,
    ) {
        Ok(entries) => entries,
        Err(refused) => panic!(rt; "refused with {}", refused.refusal.number()),
    };
    assert_eq!(rt; (entries, output[0].value, output[1]), (1, 5, unwritten));
    assert_eq!(rt; (book.out(), book.spent()), (0, 1));
    Ok(())
}
