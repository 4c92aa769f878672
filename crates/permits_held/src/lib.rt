//! What a program does with permits: each is handed back, from wherever it was kept, or spent by a release. The must-fail
//! edits let them go, each in another way. Rests on keys, model, summaries and release.
#![tactic(auto)]

ghost use Rattle.std.specs.Prelude.{◌≡◌, cond, length, replicate, pos, IfOk, Ok, OnErr};
ghost use Rattle.release.specs.Books.{has_left, knows, one_out, one_spent, handed_back, after_hand_back};
ghost use Rattle.release.specs.Releases.{output_by};
ghost use Rattle.permits_held.specs.Served.{served, served_in_turn, served_in_rounds, served_by_new, listed_by, list_answer, list_book};

use keys::refusal::Refusal;
use release::book::{Book, Refused};
use release::entry::Entry;
use release::permit::Permit;
use release::release::release;
use summaries::summary::Summary;

/// From a variable.
pub fn in_variable(book: &mut Book) -> Result<(), Refusal>
    ensures answer { result ≡ served book.old }
    ensures book { book.new ≡ book.old }
{
    let permit = book.issue()?;
    let _ = book.hand_back(permit);
    Ok(())
}

/// From a variable that is assigned anew once the first permit is back.
pub fn in_turn(first: &mut Book, second: &mut Book) -> Result<(), Refusal>
    ensures answer { result ≡ served_in_turn first.old second.old }
    ensures first { first.new ≡ first.old }
    ensures second { second.new ≡ second.old }
{
    let mut permit = first.issue()?;
    let _ = first.hand_back(permit);
    permit = second.issue()?;
    let _ = second.hand_back(permit);
    Ok(())
}

/// From an `Option`. It answers whether there was one.
pub fn in_option(book: &mut Book) -> bool
    ensures answer { result ≡ has_left book.old }
    ensures book { book.new ≡ book.old }
{
    let held = book.issue().ok();
    let Some(held) = held else { return false };
    let _ = book.hand_back(held);
    true
}

/// From a `Result`.
pub fn in_result(book: &mut Book) -> Result<(), Refusal>
    ensures answer { result ≡ served book.old }
    ensures book { book.new ≡ book.old }
{
    let issued = book.issue();
    match issued {
        Ok(issued) => {
            let _ = book.hand_back(issued);
            Ok(())
        }
        Err(refusal) => Err(refusal),
    }
}

/// From a loop.
pub fn in_loop(book: &mut Book, rounds: u32) -> Result<(), Refusal>
    ensures answer { result ≡ served_in_rounds rounds book.old }
    ensures book { book.new ≡ book.old }
{
    for _ in 0..rounds {
        let round = book.issue()?;
        let _ = book.hand_back(round);
    }
    Ok(())
}

/// To a book that is made for it, and let go then.
pub fn to_own_book(number: u32, limit: u32) -> Result<(), Refusal>
    ensures { result ≡ served_by_new limit }
{
    let mut book = Book::make(number, limit)?;
    let own = book.issue()?;
    let _ = book.hand_back(own);
    Ok(())
}

/// To a book, and to another where that one refuses it.
pub fn to_either(first: &mut Book, second: &mut Book, permit: Permit) -> Result<(), Refused>
    ensures answer { result ≡ cond (knows first.old permit) (Ok tt) (handed_back second.old permit) }
    ensures first { first.new ≡ after_hand_back first.old permit }
    ensures second { second.new ≡ cond (knows first.old permit) second.old (after_hand_back second.old permit) }
{
    match first.hand_back(permit) {
        Ok(()) => Ok(()),
        Err(refused) => second.hand_back(refused.permit),
    }
}

/// To a release; to the book where that refuses it. Where no permit is left no release is made, and the draws stay.
pub fn to_release<S: Summary>(
    summary: &S,
    book: &mut Book,
    shared: i32,
    draws: &mut [i32],
    threshold: u32,
    output: &mut [Entry<S::Key>],
) -> Result<usize, Refusal>
    ensures answer { result ≡ list_answer (listed_by (S.content summary.now) book.old shared draws.old threshold (length output.old)) }
    ensures book { book.new ≡ list_book book.old result }
    ensures draws { draws.new ≡ cond (has_left book.old) (replicate (length draws.old) (pos 0)) draws.old }
    ensures output { output.new ≡ output_by output.old (listed_by (S.content summary.now) book.old shared draws.old threshold (length output.old)) }
    ensures accepted { IfOk result (λ n. book.new ≡ one_spent (one_out book.old)) }
    ensures refused { OnErr result (book.new ≡ book.old) }
{
    let listing = book.issue()?;
    match release(summary, book, listing, shared, draws, threshold, output) {
        Ok(entries) => Ok(entries),
        Err(refused) => {
            let _ = book.hand_back(refused.permit);
            Err(refused.refusal)
        }
    }
}
