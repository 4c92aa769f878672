//! A permit: a token of a book. It is used up by one release, or when it is handed back; only then may it be let go.
ghost use Rattle.std.specs.Prelude.{◌≡◌, true, false};

/// It is made by its book alone, and it is neither copied nor cloned. `used_up` is true once a release or its being
/// handed back has used it up; the book counts as spent only those used up by a release.
pub struct Permit {
    book: u32,
    used_up: bool,
}

impl Drop for Permit {
    /// What is required is proved wherever a permit is let go.
    fn drop(self)
        requires { self.used_up ≡ true }
    {
        let Permit {
            book: _,
            used_up: _,
        } = self;
    }
}

impl Permit {
    pub(crate) fn new(book: u32) -> Permit
        ensures { result ≡ record { book = book; used_up = false } }
    {
        Permit {
            book,
            used_up: false,
        }
    }

    /// The number of its book.
    pub fn book(&self) -> u32
        ensures { result ≡ self.now.book }
    {
        self.book
    }

    /// Marks it as used up and lets it go.
    pub(crate) fn spend(mut self) {
        self.used_up = true;
    }
}
