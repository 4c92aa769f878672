//! A book of permits. No more of its permits are out and spent together than its limit.
ghost use Rattle.std.specs.Prelude.{◌≡◌, ◌+◌, ◌<◌, true, IfOk};
ghost use Rattle.release.specs.Books.{IsBook, one_back, made_book, knows, issued, after_issue, handed_back, after_hand_back, after_release};
ghost use Rattle.release.specs.BookRuns.{KeepsBookLaw};

use crate::permit::Permit;
use keys::refusal::Refusal;
use std::marker::Model;

/// Between calls its limit is 1 to 1,000, and it is not passed. A book may be let go only when none of its permits is
/// out: no program that loses a permit and then lets the book go passes.
#[derive(Debug)]
pub struct Book {
    number: u32,
    limit: u32,
    out: u32,
    spent: u32,
}

impl Model for Book {
    ghost use Rattle.release.specs.Books.{BookState, IsBook};

    ghost Value = { BookState };

    ghost view = { λ b. record { number = b.number; limit = b.limit; out = b.out; spent = b.spent } };

    ghost invariant = { λ b. IsBook (record { number = b.number; limit = b.limit; out = b.out; spent = b.spent }) };
}

impl Drop for Book {
    /// What is required is proved wherever a book is let go.
    fn drop(self)
        requires { self.out ≡ 0 }
    {
        let Book {
            number: _,
            limit: _,
            out: _,
            spent: _,
        } = self;
    }
}

/// A permit that was not taken comes back with the refusal.
#[derive(Drop)]
pub struct Refused {
    pub refusal: Refusal,
    pub permit: Permit,
}

impl Book {
    /// A book of this number that has issued no permit. Refused with 1 if the limit is not 1 to 1,000.
    #[tactic(auto, using(crate::proofs::Runs::keeps_book_law))]
    pub fn make(number: u32, limit: u32) -> Result<Book, Refusal>
        ensures made { result ≡ made_book number limit }
        ensures law { IfOk result KeepsBookLaw }
    {
        if limit < 1 || limit > 1000 {
            return Err(Refusal::OutOfRange);
        }
        Ok(Book {
            number,
            limit,
            out: 0,
            spent: 0,
        })
    }

    /// The number that its permits carry.
    pub fn number(&self) -> u32
        ensures { result ≡ self.now.number }
    {
        self.number
    }

    /// Whoever was lent a book knows by it that the limit is 1 to 1,000, and that it is not passed.
    pub fn limit(&self) -> u32
        ensures limit { result ≡ self.now.limit }
        ensures stands { IsBook self.now }
    {
        self.limit
    }

    /// How many permits are out.
    pub fn out(&self) -> u32
        ensures { result ≡ self.now.out }
    {
        self.out
    }

    /// How many are spent.
    pub fn spent(&self) -> u32
        ensures { result ≡ self.now.spent }
    {
        self.spent
    }

    /// A permit of this book, which is then out. Refused with 10 if those out and those spent make the limit.
    pub fn issue(&mut self) -> Result<Permit, Refusal>
        ensures answer { result ≡ issued self.old }
        ensures book { self.new ≡ after_issue self.old }
    {
        if self.out + self.spent >= self.limit {
            return Err(Refusal::UsedUp);
        }
        self.out += 1;
        Ok(Permit::new(self.number))
    }

    /// Whether the permit is one of this book that is out, as far as the book can know.
    pub(crate) fn knows(&self, permit: &Permit) -> bool
        ensures { result ≡ knows self.now permit.now }
    {
        permit.book() == self.number && self.out > 0
    }

    /// The permit is out no more, and not spent. Refused with 11 if it is of another book or none is out: it then comes
    /// back.
    pub fn hand_back(&mut self, permit: Permit) -> Result<(), Refused>
        ensures answer { result ≡ handed_back self.old permit }
        ensures book { self.new ≡ after_hand_back self.old permit }
    {
        if !self.knows(&permit) {
            return Err(Refused {
                refusal: Refusal::Foreign,
                permit,
            });
        }
        self.take_in(permit);
        Ok(())
    }

    /// The step of a release that is accepted: the permit is out no more, and spent.
    pub(crate) fn accept(&mut self, permit: Permit)
        requires { knows self.old permit ≡ true }
        ensures { self.new ≡ after_release self.old permit }
    {
        self.take_in(permit);
        self.spent += 1;
    }

    /// Uses a permit up, which is no longer out then.
    fn take_in(&mut self, permit: Permit)
        requires { 0 < self.old.out }
        ensures book { self.new ≡ one_back self.old }
        ensures room { self.new.out + self.new.spent < self.new.limit }
    {
        self.out -= 1;
        permit.spend();
    }
}
