//! The cells in which the wakers of both sides lie while they are registered.
ghost use Rattle.std.specs.Prelude.{◌≡◌, ◌<◌, true, false, [], ◌∷◌, slice_index, is_some};
ghost use Rattle.piper_ring.specs.Cells.{list_of};
ghost use Rattle.piper_ring.specs.SlotValues.{IsTokenAt, IsTokenOf};

use piper_cells::token_cell::{Token, TokenCell};

/// The cells of wakers of any type: each slot and each side has one of them at a time.
#[derive(Drop)]
pub struct WakerCells<T> {
    pub(crate) first: TokenCell<Option<T>>,
    pub(crate) second: TokenCell<Option<T>>,
    pub(crate) third: TokenCell<Option<T>>,
    pub(crate) fourth: TokenCell<Option<T>>,
}

/// A side's own cell, in which nothing lies between its steps: which one it is, and the right to it.
#[derive(Drop)]
pub(crate) struct OwnCell {
    pub(crate) index: u64,
    pub(crate) right: Token,
}

/// What was left in the slots of a ring that both ends have left.
#[derive(Drop)]
pub struct LeftWakers<T> {
    pub reader: Option<T>,
    pub writer: Option<T>,
}

/// The rights to four empty cells.
pub(crate) struct CellRights {
    pub(crate) first: Token,
    pub(crate) second: Token,
    pub(crate) third: Token,
    pub(crate) fourth: Token,
    ghost there: { (first.there ≡ true) × (second.there ≡ true) × (third.there ≡ true)
        × (fourth.there ≡ true) },
    ghost empty: { (first.filled ≡ false) × (second.filled ≡ false) × (third.filled ≡ false)
        × (fourth.filled ≡ false) },
}

impl<T> WakerCells<T> {
    /// Four empty cells, and the rights to them.
    pub(crate) fn empty() -> (WakerCells<T>, CellRights)
        ensures { list_of result.0 ≡ result.1.first.name ∷ result.1.second.name
            ∷ result.1.third.name ∷ result.1.fourth.name ∷ [] }
    {
        let (first, first_right) = TokenCell::empty();
        let (second, second_right) = TokenCell::empty();
        let (third, third_right) = TokenCell::empty();
        let (fourth, fourth_right) = TokenCell::empty();
        let cells = WakerCells {
            first,
            second,
            third,
            fourth,
        };
        let rights = CellRights {
            first: first_right,
            second: second_right,
            third: third_right,
            fourth: fourth_right,
        };
        (cells, rights)
    }

    /// The cell of that index.
    #[inline(always)]
    pub(crate) fn at(&self, index: u64) -> &TokenCell<Option<T>>
        requires { index < 4 }
        ensures { result.now ≡ slice_index (list_of self.now) index }
    {
        match index {
            0 => &self.first,
            1 => &self.second,
            2 => &self.third,
            _ => &self.fourth,
        }
    }
}

/// What lies in the cell of which the word of a slot says that, and to which this is the right.
pub(crate) fn take_out<T>(cells: &WakerCells<T>, word: u64, right: &mut Token) -> Option<T>
    requires at { IsTokenAt (list_of cells.now) word right.old }
    ensures some { is_some result ≡ right.old.filled }
    ensures right { right.new ≡ record right.old { filled = false } }
{
    if word % 2 == 0 {
        return None;
    }
    Some(cells.at(word / 2).take(right))
}

impl OwnCell {
    /// After an exchange: the cell of which the word that was found speaks is the side's own, and
    /// what lies in it comes out.
    pub(crate) fn take_out<T>(&mut self, cells: &WakerCells<T>, word: u64) -> Option<T>
        requires at { IsTokenAt (list_of cells.now) word self.old.right }
        ensures some { is_some result ≡ self.old.right.filled }
        ensures own { IsTokenOf (list_of cells.now) self.new.index false self.new.right }
    {
        self.index = word / 2;
        take_out(cells, word, &mut self.right)
    }
}

impl<T> LeftWakers<T> {
    pub(crate) fn none() -> LeftWakers<T> {
        LeftWakers {
            reader: None,
            writer: None,
        }
    }
}
