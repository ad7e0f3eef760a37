//! The order of entry points.
ghost use Rattle.std.specs.Prelude.{List};
ghost use Rattle.url.specs.Parts.{Parts};
ghost use Rattle.fast_check_finder_ranges.specs.entries.Entries.{in_order};
ghost use Rattle.fast_check_finder_ranges.specs.entries.Ordered.{AreInOrder};

/// The law that the entry points of a package stand in the order of their texts, each once, and are the URLs that its exports name. It
/// holds of the definitions; it does nothing when it is called.
pub fn entry_order()
    ensures { (urls : List Parts) → AreInOrder urls (in_order urls) }
{}
