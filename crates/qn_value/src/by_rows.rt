//! Contractions row by row.

ghost use Rattle.qn_value.specs.Rows.{RowsLaw, TraceRowsLaw};

/// A contraction of two tensors is a sum over pairs of rows.
pub fn rows_law()
    ensures { RowsLaw }
{}

/// A contraction of one tensor is a sum over its rows.
pub fn trace_rows_law()
    ensures { TraceRowsLaw }
{}
