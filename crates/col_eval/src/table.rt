//! Tables: columns of one length.
ghost use Rattle.std.specs.Prelude.{◌≡◌, ◌<◌, ◌^◌, ◌==◌, IsTrue, IfOk, IfErr, Some, length, map};
ghost use Rattle.std.specs.Prelude.{slice_get, vec_len, IsOk, ◌↔◌};
ghost use Rattle.std.specs.List.{list_all};
ghost use Rattle.col_types.specs.Column.{is_table, row_count, table_row_count};
ghost use Rattle.col_types.specs.declared.error.Error.TheVariants.{InvalidArgumentError};
ghost use Rattle.col_types.specs.declared.error.Reason.TheVariants.{Lengths};
ghost use Rattle.col_array.specs.Any.{any_column};

use col_array::AnyArray;
use col_types::{Error, Reason};
use std::marker::Model;

/// Columns of one length.
#[derive(Drop)]
pub struct Table {
    columns: Vec<AnyArray>,
    rows: usize,
}

impl Model for Table {
    ghost use Rattle.std.specs.Prelude.{◌≡◌, IsTrue, List, map};
    ghost use Rattle.col_types.specs.Column.{Column, is_table, table_row_count};
    ghost use Rattle.col_array.specs.Any.{any_column};
    ghost use Rattle.std.specs.Coded.{codes};
    ghost use Rattle.col_model.proofs.CellCode.{cell_code};
    ghost use Rattle.col_types.proofs.KindCode.{kind_code};

    ghost Value = { List Column };

    ghost coded = { Prim.hlevel (codes, kind_code, cell_code) };

    ghost view = { λ a. map any_column a.columns.items };

    ghost invariant = { λ a. IsTrue (is_table (map any_column a.columns.items))
        × (a.rows ≡ table_row_count (map any_column a.columns.items)) };
}

impl Table {
    /// The table of the columns, in their order. Without columns it has no rows.
    ///
    /// Refused: `Lengths` where two columns differ in length; the columns are handed back.
    pub fn new(columns: Vec<AnyArray>) -> Result<Table, (Error, Vec<AnyArray>)>
        requires { vec_len columns < 2 ^ 32 }
        ensures value { IfOk result (λ table. table ≡ map any_column columns.items) }
        ensures lengths { IsOk result ↔ IsTrue (is_table (map any_column columns.items)) }
        ensures kept { IfErr result (λ e. (e.0 ≡ InvalidArgumentError Lengths) × (e.1 ≡ columns)) }
    {
        let rows = first_length(columns.as_slice());
        if have_length(columns.as_slice(), rows) {
            Ok(Table { columns, rows })
        } else {
            Err((Error::InvalidArgumentError(Reason::Lengths), columns))
        }
    }

    /// The number of rows.
    pub fn rows(&self) -> usize
        ensures value { result ≡ table_row_count self.now }
        ensures one_length { IsTrue (is_table self.now) }
    {
        self.rows
    }

    /// The number of columns.
    pub fn width(&self) -> usize
        ensures { result ≡ length self.now }
    {
        self.columns.len()
    }

    /// The column at a position.
    pub fn column(&self, i: usize) -> &AnyArray
        requires { i < length self.now }
        ensures value { slice_get self.now i ≡ Some (any_column result.now) }
        ensures one_length { IsTrue (is_table self.now) }
    {
        &self.columns[i]
    }
}

// The length of the first column, or 0 without columns.
fn first_length(columns: &[AnyArray]) -> usize
    ensures { result ≡ table_row_count (map any_column columns.now) }
{
    match columns {
        [] => 0,
        [column, ..] => column.len(),
    }
}

// Whether each column has the length.
fn have_length(columns: &[AnyArray], rows: usize) -> bool
    ensures { result ≡ list_all (λ column. row_count column == rows) (map any_column columns.now) }
{
    columns.iter().all(|column| column.len() == rows)
}
