//! What the calls on a book did. While a permit is out nothing is printed, since a print that fails would let the permit
//! go; so each step is kept, and printed once every permit is spent or handed back.
use keys::refusal::Refusal;
use release::book::Book;
use std::io;

/// What a call on a book did.
#[derive(Clone, Copy)]
pub enum Done {
    Issued,
    NotIssued(Refusal),
    HandedBack,
    Released(usize),
    NotReleased(Refusal),
}

/// What a call did, and how many permits of the book are out and spent then.
#[derive(Clone, Copy)]
pub struct Step {
    done: Done,
    out: u32,
    spent: u32,
}

impl Step {
    pub fn new(done: Done, book: &Book) -> Step {
        Step {
            done,
            out: book.out(),
            spent: book.spent(),
        }
    }

    /// How many entries the list has, where one was released.
    pub fn entries(&self) -> usize {
        match self.done {
            Done::Released(entries) => entries,
            _ => 0,
        }
    }
}

fn show_step(rt: &impl Print, step: &Step) -> io::Result<()> {
    let Step { done, out, spent } = *step;
    match done {
        Done::Issued => print!(rt; "issue: a permit"),
        Done::NotIssued(refusal) => print!(rt; "issue: refused with {}", refusal.number()),
        Done::HandedBack => print!(rt; "hand back: the permit is used up"),
        Done::Released(entries) => print!(rt; "release: a list of {entries}, the permit is spent"),
        Done::NotReleased(refusal) => print!(rt;
            "release: refused with {}, the permit is handed back",
            refusal.number()
        ),
    }?;
    println!(rt; "; {out} out, {spent} spent")
}

pub fn show_steps(rt: &impl Print, steps: &[Step]) -> io::Result<()> {
    for step in steps {
        show_step(rt, step)?;
    }
    Ok(())
}
