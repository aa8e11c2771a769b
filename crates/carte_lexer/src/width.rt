ghost use Rattle.std.specs.Prelude.{◌≡◌, ◌≤◌, ◌∷◌, [], List, OnOk, OnErr};
ghost use Rattle.carte_lexer.specs.declared.tokens.Token.TheVariants as tokens;
ghost use Rattle.carte_lexer.specs.Tokens.{Placed, sign_token};
ghost use Rattle.carte_lexer.specs.Widths.{wide_from};

use crate::cell::Cell;
use crate::tokens::{Placed, Sign, Token};
use carte_value::NoMemory;
use std::alloc::Global;
use std::mem;

/// How many cells the ranges of a formula may have together.
const MOST_CELLS: u64 = 65_536;

/// The last tokens and their places, where a range may have begun with them.
#[derive(Drop)]
pub enum Begun {
    /// No range.
    Nothing,
    /// A cell.
    Corner(usize, Cell),
    /// A cell and a colon.
    Half(usize, Cell, usize),
}

/// The ranges among the tokens so far: how many cells they have, or where they became too many.
#[derive(Drop)]
pub struct Ranges {
    pub cells: u64,
    pub too_wide: Option<usize>,
    pub begun: Begun,
    ghost few: { cells ≤ 65536 },
}

impl Ranges {
    ghost use Rattle.carte_lexer.specs.Ranges.{wide_behind, wide_after, wide_counted};

    /// No token so far.
    pub fn new() -> Ranges
        ensures { (ps : List Placed) → wide_after result ps ≡ wide_from 0 ps }
    {
        Ranges {
            cells: 0,
            too_wide: None,
            begun: Begun::Nothing,
        }
    }

    /// A token follows. Where there is no memory, nothing has changed.
    #[inline(always)]
    pub fn take(&mut self, alloc: Global, placed: &Placed) -> Result<(), NoMemory>
        ensures refused { OnErr result (self.new ≡ self.old) }
        ensures taken { OnOk result ((ps : List Placed) → wide_after self.old (placed.now ∷ ps) ≡ wide_after self.new ps) }
    {
        match &placed.token {
            Token::Cell(cell) => self.take_cell(alloc, placed.place, cell),
            Token::Colon => {
                self.take_colon(placed.place);
                Ok(())
            }
            _ => {
                self.forget();
                Ok(())
            }
        }
    }

    /// A sign follows.
    #[inline(always)]
    pub fn take_sign(&mut self, place: usize, sign: Sign)
        ensures { (ps : List Placed) → wide_after self.old (record { place = place; token = sign_token sign } ∷ ps) ≡ wide_after self.new ps }
    {
        match sign {
            Sign::Colon => self.take_colon(place),
            _ => self.forget(),
        }
    }

    /// No range is begun any more. Mostly none was, and then nothing is written.
    #[inline(always)]
    fn forget(&mut self)
        ensures { (ps : List Placed) → wide_behind self.old ps ≡ wide_after self.new ps }
    {
        match &self.begun {
            Begun::Nothing => {}
            _ => self.begun = Begun::Nothing,
        }
    }

    fn take_cell(&mut self, alloc: Global, place: usize, cell: &Cell) -> Result<(), NoMemory>
        ensures refused { OnErr result (self.new ≡ self.old) }
        ensures taken { OnOk result ((ps : List Placed) → wide_after self.old (record { place = place; token = tokens.Cell cell.now } ∷ ps) ≡ wide_after self.new ps) }
    {
        let corner = cell.copy(alloc)?;
        let begun = mem::replace(&mut self.begun, Begun::Corner(place, corner));
        match begun {
            Begun::Half(first, opposite, _) => {
                self.count(first, opposite.to(cell).size());
                Ok(())
            }
            _ => Ok(()),
        }
    }

    fn take_colon(&mut self, place: usize)
        ensures { (ps : List Placed) → wide_after self.old (record { place = place; token = tokens.Colon } ∷ ps) ≡ wide_after self.new ps }
    {
        if let Begun::Corner(first, corner) = mem::replace(&mut self.begun, Begun::Nothing) {
            self.begun = Begun::Half(first, corner, place);
        }
    }

    /// A range that begins at a place has so many cells.
    fn count(&mut self, place: usize, size: u64)
        ensures begun { self.new.begun ≡ self.old.begun }
        ensures cells { (ps : List Placed) → wide_behind self.new ps ≡ wide_counted self.old place size ps }
    {
        if self.too_wide.is_some() {
            return;
        }
        if size > MOST_CELLS - self.cells {
            self.too_wide = Some(place);
        } else {
            self.cells += size;
        }
    }

    /// The place of the first cell of the range with which all ranges have more than 65,536 cells.
    #[tactic(auto, using(crate::proofs::Ranging::none_after))]
    pub fn too_wide(&self) -> Option<usize>
        ensures { result ≡ wide_after self.now [] }
    {
        self.too_wide
    }
}
