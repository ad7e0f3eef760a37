//! The laws of a unique public API, as contracts.
ghost use Rattle.fast_check_finder_unique.specs.Answers.{HaveOneAnswer};
ghost use Rattle.fast_check_finder_unique.specs.Carried.{ArePackagesCarried, ArePathsCarried, AreStarsCarried};
ghost use Rattle.fast_check_finder_unique.specs.Edits.{KeepsApi};
ghost use Rattle.fast_check_finder_unique.specs.Example.{OneExport};
ghost use Rattle.fast_check_finder_unique.specs.OneApi.{HasOneApi};

/// The law of one public API: if an input is settled, any two accounts of it yield the same. An input is settled if every chained demand's
/// yields are forced: each account yields them, whichever demands it covers others by. The law holds of the definitions; a call of this
/// function does nothing.
///
/// Some inputs are not settled. For example, package `p` exports all names of package `q`, and `q` all names of a module that also has a default
/// export. The default export is public if `p` is passed in before `q`, and private if `q` is passed in first.
///
/// The example is a settled input: a package whose only module exports one function that refers to no other declaration.
pub fn one_api()
    ensures law { HasOneApi }
    ensures of_one_export { OneExport }
{}

/// The law of one answer: if an input is settled, any two answers to it list the same public ranges of each module, and the same implementations of
/// overloads. The law holds of the definitions, and so of the answers of `find_public_ranges`; a call of this function does nothing.
pub fn one_answer()
    ensures law { HaveOneAnswer }
{}

/// The law of hidden edits: let each demand of the first input correspond to one of the second, and let the second be settled. Then each account of
/// the second yields what any account of the first does. Symbol ids and positions may differ, by a correspondence that the caller chooses. The law
/// holds of the definitions; a call of this function does nothing.
pub fn hidden_edit()
    ensures law { KeepsApi }
{}

/// The law of demands that are followed wherever they are covered: an account that covers a package, a path below a symbol, or all names but `default`
/// of a module also covers what follows from it. For names of modules no module may be demanded for two packages. The law holds of the definitions; a
/// call of this function does nothing.
pub fn carried()
    ensures packages { ArePackagesCarried }
    ensures paths { ArePathsCarried }
    ensures stars { AreStarsCarried }
{}
