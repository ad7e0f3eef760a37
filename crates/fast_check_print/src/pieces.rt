//! Positions and ranges as JSON.
ghost use Rattle.std.specs.Prelude.{OnOk};
ghost use Rattle.fast_check_print.specs.Pieces.{number_data, range_data};
ghost use Rattle.fast_check_print.specs.Writing.{WritesData};

use fast_check_tree_syntax::{SourcePos, SourceRange};
use json::Writer;
use std::alloc::AllocError;

/// Writes a position as its number.
pub fn print_position(out: &mut Writer, position: SourcePos) -> Result<(), AllocError>
    ensures { OnOk result (WritesData (number_data position.0) out.old out.new) }
{
    out.u64(u64::from(position.0))
}

/// Writes a range as an array of its start and its end.
pub fn print_range(out: &mut Writer, range: SourceRange) -> Result<(), AllocError>
    ensures { OnOk result (WritesData (range_data range) out.old out.new) }
{
    out.begin_array()?;
    print_position(out, range.start)?;
    print_position(out, range.end)?;
    out.end_array()
}
