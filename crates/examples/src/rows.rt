// Rows of cells, each of which may take in another one.
ghost use Rattle.std.specs.Prelude.{◌≡◌, IfOk, OnOk};
ghost use Rattle.std.specs.Option.{option_copied};
ghost use Rattle.examples.specs.Grids.{row_sum, row_after};

use class_laws::{Class, Reducible, WrapSum};
use ss_base::OutOfMemory;
use std::alloc::Global;
use std::marker::Model;

/// A row of cells, which contracts see as a list of them.
#[derive(Drop)]
pub struct Row {
    cells: Vec<u64>,
}

impl Model for Row {
    ghost use Rattle.std.specs.Prelude.{ℕ, List};

    ghost Value = { List ℕ };

    ghost view = { λ row. row.cells.items };
}

impl Row {
    /// A row of these cells.
    pub fn new(cells: Vec<u64>) -> Row
        ensures { result ≡ cells.items }
    {
        Row { cells }
    }

    /// The cells.
    pub fn cells(&self) -> &[u64]
        ensures { result.now ≡ self.now }
    {
        &self.cells
    }

    // Becomes another row.
    fn take(&mut self, other: &Row) -> Result<(), OutOfMemory>
        ensures { OnOk result (self.new ≡ other.now) }
    {
        self.cells = other.cells.clone()?;
        Ok(())
    }

    // Has another row added to it.
    fn add(&mut self, other: &Row)
        ensures { self.new ≡ row_sum self.old other.now }
    {
        add_cells(&mut self.cells, &other.cells);
    }

    /// An equal row.
    pub(crate) fn copy(&self) -> Result<Row, OutOfMemory>
        ensures { IfOk result (λ copy. copy ≡ self.now) }
    {
        Ok(Row::new(self.cells.clone()?))
    }
}

/// What a row does with the row that it reads. Where it reads none it stays as it is, and nothing is
/// contributed.
#[derive(Clone, Copy, Debug, PartialEq, Eq)]
pub enum Intake {
    /// Becomes equal to it.
    Take,
    /// Adds its cells, modulo 2^64, as far as both rows go.
    Add,
}

// Adds cells to others, as far as there are both.
fn add_cells(cells: &mut [u64], other: &[u64])
    ensures { cells.new ≡ row_sum cells.old other.now }
{
    let both = cells.len().min(other.len());
    for place in 0..both {
        cells[place] = cells[place].wrapping_add(other[place]);
    }
}

// A row takes in another, where there is one.
fn take_in(row: &mut Row, intake: Intake, reading: Option<&Row>) -> Result<(), OutOfMemory>
    ensures { OnOk result (row.new ≡ row_after row.old intake (option_copied reading.entry)) }
{
    match (intake, reading) {
        (Intake::Take, Some(other)) => row.take(other)?,
        (Intake::Add, Some(other)) => row.add(other),
        _ => {}
    }
    Ok(())
}

impl Class for Row {
    type Op = Intake;

    type Red = WrapSum;

    ghost use Rattle.std.specs.Prelude.{refl};
    ghost use Rattle.examples.specs.Grids.{row_meaning};

    ghost meaning = { row_meaning };

    ghost same_unit = { refl };

    ghost same_join = { refl };

    fn apply(
        &mut self,
        alloc: Global,
        intake: &Intake,
        reading: Option<&Row>,
        red: &mut WrapSum,
    ) -> Result<(), OutOfMemory> {
        take_in(self, *intake, reading)?;
        red.join(WrapSum::unit(alloc))
    }

    fn own_set(_intake: &Intake) -> u64 {
        0
    }

    fn copy(&self, _alloc: Global) -> Result<Row, OutOfMemory> {
        self.copy()
    }
}
