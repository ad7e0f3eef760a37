//! The names of choices' variants that stand round a node in JSON.
ghost use Rattle.std.specs.Prelude.{◌≡◌, ◌≤◌, IfOk, OnOk, length, replicate};
ghost use Rattle.json.specs.Token.{end_object};
ghost use Rattle.fast_check_print.specs.Trees.{variant_names};
ghost use Rattle.fast_check_print.specs.Writing.{Adds, opening};

use fast_check_read::schema::{Form, variant_of};
use fast_check_tree_syntax::Kind;
use json::Writer;
use std::alloc::AllocError;

/// Opens an object, with the variant's name as its key, for each variant that a node is of where `form` stands, outermost
/// first, through at most `levels` choices. Answers how many it opened.
pub(crate) fn open_variants(
    out: &mut Writer,
    kind: Kind,
    form: Form,
    levels: u8,
) -> Result<u8, AllocError>
    ensures tokens { OnOk result (Adds (opening (variant_names levels kind form)) out.old out.new) }
    ensures count { IfOk result (λ opened. (opened ≡ length (variant_names levels kind form)) × (opened ≤ levels)) }
{
    match form {
        Form::Choice(choice) if levels > 0 => match variant_of(choice, kind) {
            Some(variant) => {
                out.begin_object()?;
                out.key(variant.0)?;
                Ok(1 + open_variants(out, kind, variant.1, levels - 1)?)
            }
            None => Ok(0),
        },
        _ => Ok(0),
    }
}

/// Closes so many objects.
pub(crate) fn close_variants(out: &mut Writer, opened: u8) -> Result<(), AllocError>
    ensures { OnOk result (Adds (replicate opened end_object) out.old out.new) }
{
    for _ in 0..opened {
        out.end_object()?;
    }
    Ok(())
}
