//! A place for one value, which two threads share, and the right to use it, which one side has at a
//! time. The right has no size: it is handed on with the words of a lock-free structure.
ghost use Rattle.std.specs.Prelude.{◌≡◌, ℕ, Bool, true, false};
ghost use Rattle.std.specs.Borrow.{ftrue};
ghost use Rattle.std.specs.Coded.{coded_ℕ};
ghost use Rattle.piper_cells.specs.TokenCell.{place_owns, place_shares, right};

use std::marker::{Model, Move, Owns, PhantomData, Send, Sync};

/// What a cell can hold: it says of each content whether the cell is filled.
pub trait Content {
    ghost is_full: { Self → Bool };
}

impl<T> Content for Option<T> {
    ghost use Rattle.std.specs.Prelude.{is_some};

    ghost is_full = { is_some };
}

/// A cell. In a clause it is a number that no other cell has.
pub struct TokenCell<X: Content> {
    content: X,
}

impl<X: Content> Owns for TokenCell<X> {
    ghost Value = { ℕ };

    ghost coded = { coded_ℕ };

    ghost shr_at = { λ name p κ. place_shares X.row X.is_full name p κ };
}

impl<X: Content> Move for TokenCell<X> {
    ghost own_val = { λ name vs. place_owns X.row X.is_full name
        (λ x. Fields.own_val (record { content = x }) vs) };
}

/// The right to use the place of that name, where `there` says so. It says whether the cell is
/// filled. What lies there only a proof can say, so a function that makes a right has one of its
/// own.
#[derive(Drop)]
pub struct Token {
    pub mark: PhantomData<*mut u8>,
    pub ghost name: { ℕ },
    pub ghost there: { Bool },
    pub ghost filled: { Bool },
}

impl Model for Token {
    ghost also_owns = { λ r. right r.there r.name r.filled };

    ghost also_shares = { λ _ _ _. ftrue };
}

// SAFETY: it has no bytes, and a cell asks of its content that it may go to other threads.
unsafe impl Send for Token {}

// SAFETY: a `&` to it opens nothing.
unsafe impl Sync for Token {}

impl<X: Content> TokenCell<X> {
    /// A new place, and the right to it.
    pub fn new(content: X) -> (TokenCell<X>, Token)
        ensures { (result.1.name ≡ result.0) × (result.1.there ≡ true)
            × (result.1.filled ≡ X.is_full content) }
    {
        (TokenCell { content }, Token { mark: PhantomData })
    }

    /// Puts `content` there, and returns what lay there before.
    pub fn exchange(&self, right: &mut Token, content: X) -> X
        requires { (right.old.name ≡ self.now) × (right.old.there ≡ true) }
        ensures { (X.is_full result ≡ right.old.filled)
            × (right.new ≡ record right.old { filled = X.is_full content }) }
    {
        // SAFETY: the condition says that this cell's token is here, so nobody else is in the cell
        // now.
        unsafe {
            let at = &raw const self.content as *mut X;
            let before = at.read();
            at.write(content);
            before
        }
    }

    /// What lies there.
    pub fn into_inner(self) -> X {
        let Self { content } = self;
        content
    }
}

impl<T> TokenCell<Option<T>> {
    /// An empty place, and the right to it.
    pub fn empty() -> (TokenCell<Option<T>>, Token)
        ensures { (result.1.name ≡ result.0) × (result.1.there ≡ true)
            × (result.1.filled ≡ false) }
    {
        TokenCell::new(None)
    }

    /// Puts a value into a place that is empty.
    pub fn put(&self, right: &mut Token, value: T)
        requires there { (right.old.name ≡ self.now) × (right.old.there ≡ true) }
        requires empty { right.old.filled ≡ false }
        ensures { right.new ≡ record right.old { filled = true } }
    {
        match self.exchange(right, Some(value)) {
            None => {}
            Some(_) => unreachable!(),
        }
    }

    /// Takes the value out of a place that is filled.
    pub fn take(&self, right: &mut Token) -> T
        requires there { (right.old.name ≡ self.now) × (right.old.there ≡ true) }
        requires filled { right.old.filled ≡ true }
        ensures { right.new ≡ record right.old { filled = false } }
    {
        match self.exchange(right, None) {
            Some(value) => value,
            None => unreachable!(),
        }
    }
}

impl<X: Content + Drop> Drop for TokenCell<X> {
    fn drop(self) {
        drop(self.into_inner());
    }
}

// SAFETY: its content may go to another thread.
unsafe impl<X: Content + Send> Send for TokenCell<X> {}

// SAFETY: who has its token, of which there is one, gets at the content, and nobody else.
unsafe impl<X: Content + Send> Sync for TokenCell<X> {}
