//! A call of a run with its answer, as a line.
use crate::answers::{show_counted, show_fed, show_numbers, show_paged, show_placed};
use crate::shown::Shown;
use keys::refusal::Refusal;
use std::io;
use summaries::answers::Taken;
use work::call::{Answer, Call, Releasing};

/// What taking a key answered.
fn show_taken<K: Shown>(
    rt: &(impl Print + AllocGlobal),
    key: &K,
    answer: &Result<Taken, Refusal>,
) -> io::Result<()> {
    let text = key.shown(rt.alloc())?;
    match answer {
        Ok(Taken::Raised) => println!(rt; "take: {text} was held, and counts 1 more"),
        Ok(Taken::Lowered) => println!(rt; "take: {text} is not held, and every count fell by 1"),
        Ok(Taken::Replaced) => println!(rt; "take: {text} came in for another key"),
        Err(refusal) => println!(rt; "take: {text} is refused with {}", refusal.number()),
    }
}

/// What a release answered. The places of its books are counted from 0.
fn show_released(
    rt: &impl Print,
    given: &Releasing,
    answer: &Option<Result<usize, Refusal>>,
) -> io::Result<()> {
    let Releasing { issuer, book, .. } = given;
    print!(rt; "release with book {book} by a permit of book {issuer}: ")?;
    match answer {
        Some(Ok(entries)) => println!(rt; "a list of {entries}"),
        Some(Err(refusal)) => println!(rt; "refused with {}", refusal.number()),
        None => println!(rt; "there is no such book"),
    }
}

/// Prints a call with its answer.
pub fn show_answer<K: Shown, L>(
    rt: &(impl Print + AllocGlobal),
    call: &Call<'_, K, L>,
    answer: &Answer<K>,
) -> io::Result<()> {
    match (call, answer) {
        (Call::Take(key), Answer::Take(answer)) => show_taken(rt, key, answer),
        (Call::Feed(_), Answer::Feed(answer)) => show_fed(rt, answer),
        (Call::Count(key), Answer::Count(answer)) => show_counted(rt, key, answer),
        (Call::Place(j), Answer::Place(answer)) => show_placed(rt, *j, answer),
        (Call::Facts, Answer::Facts(answer)) => show_numbers(rt, answer),
        (Call::Page { limit, .. }, Answer::Page(answer)) => show_paged(rt, *limit, answer),
        (Call::Release(given), Answer::Release(answer)) => show_released(rt, given, answer),
        _ => println!(rt; "another call was answered"),
    }
}

/// Prints each call with its answer.
pub fn show_answers<K: Shown, L>(
    rt: &(impl Print + AllocGlobal),
    calls: &[Call<'_, K, L>],
    answers: &[Answer<K>],
) -> io::Result<()> {
    for (call, answer) in calls.iter().zip(answers) {
        show_answer(rt, call, answer)?;
    }
    Ok(())
}
