//! Blocks as matrices.

ghost use Rattle.std.specs.Prelude.{◌≡◌, ◌<◌, ◌≤◌, ℕ, true, map, length};
ghost use Rattle.qn_gauss.specs.Gaussian.{mag};
ghost use Rattle.qn_kernel.specs.Matrices.{number_at, IsMatrix};
ghost use Rattle.qn_kernel.specs.Numbers.{small_value};
ghost use Rattle.qn_kernel.specs.Cells.{cells_of, AreWithin};

use crate::number::Small;
use qn_gauss::Gauss;
use std::marker::Model;

/// The numbers of a matrix, row by row: entries, or parts that have at most 63 bits.
#[derive(Debug, Drop)]
pub(crate) enum Cells {
    Wide(Vec<Gauss>),
    Narrow(Vec<Small>),
}

/// A block as a matrix, with the greatest magnitude of its entries.
#[derive(Debug, Drop)]
pub struct Matrix {
    rows: usize,
    cols: usize,
    greatest: u128,
    cells: Cells,
}

impl Model for Matrix {
    ghost use Rattle.qn_kernel.specs.Matrices.{MatrixValue};
    ghost use Rattle.qn_kernel.specs.Cells.{cells_of, are_narrow, AreWithin};

    ghost Value = { MatrixValue };

    ghost view = { λ m. record { rows = m.rows; cols = m.cols; cells = cells_of m.cells; narrow = are_narrow m.cells } };

    ghost invariant = { λ m. AreWithin m.greatest (cells_of m.cells) };
}

impl Matrix {
    /// A matrix of these numbers, which are at most so great.
    pub(crate) fn new(rows: usize, cols: usize, greatest: u128, cells: Cells) -> Matrix
        requires { AreWithin greatest (cells_of cells) }
        ensures rows { result.rows ≡ rows }
        ensures cols { result.cols ≡ cols }
        ensures cells { result.cells ≡ cells_of cells }
    {
        Matrix {
            rows,
            cols,
            greatest,
            cells,
        }
    }

    /// How many rows it has.
    pub(crate) fn rows(&self) -> usize
        ensures { result ≡ self.now.rows }
    {
        self.rows
    }

    /// How many columns it has.
    pub(crate) fn cols(&self) -> usize
        ensures { result ≡ self.now.cols }
    {
        self.cols
    }

    /// At most this are the magnitudes of its entries.
    pub(crate) fn greatest(&self) -> u128
        ensures { AreWithin result self.now.cells }
    {
        self.greatest
    }

    /// Its entries as they are held.
    pub(crate) fn cells(&self) -> &Cells
        ensures { cells_of result.now ≡ self.now.cells }
    {
        &self.cells
    }

    /// Whether all parts have at most 63 bits.
    pub(crate) fn is_narrow(&self) -> bool
        ensures { result ≡ self.now.narrow }
    {
        match &self.cells {
            Cells::Wide(_) => false,
            Cells::Narrow(_) => true,
        }
    }

    /// Its entries, where all parts have at most 63 bits.
    pub(crate) fn narrow(&self) -> &[Small]
        requires { self.now.narrow ≡ true }
        ensures { map small_value result.now ≡ self.now.cells }
    {
        match &self.cells {
            Cells::Wide(_) => unreachable!(),
            Cells::Narrow(cells) => cells,
        }
    }

    /// The magnitude of an entry.
    pub(crate) fn mag_at(&self, place: usize) -> u128
        requires { place < length self.now.cells }
        ensures { result ≡ mag (number_at self.now.cells place) }
    {
        match &self.cells {
            Cells::Wide(cells) => cells[place].mag(),
            Cells::Narrow(cells) => cells[place].mag(),
        }
    }
}
