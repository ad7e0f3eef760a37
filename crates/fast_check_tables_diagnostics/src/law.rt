//! The law that rows of the table of diagnostics have deno_graph's texts.
ghost use Rattle.fast_check_tables_diagnostics.specs.PinnedTexts.{TextsArePinned};

/// The law that the diagnostics of nine kinds are reported by deno_graph's texts, word by word. It holds of the definition by which each diagnostic
/// is reported; it does nothing when it is called.
pub fn pinned_texts()
    ensures { TextsArePinned }
{}
