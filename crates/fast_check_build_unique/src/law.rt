//! The law of hidden edits for whole packages, as a contract.
ghost use Rattle.fast_check_build_unique.specs.Builds.{KeepsBuilds};
ghost use Rattle.fast_check_build_unique.specs.Example.{TwoVersions};
ghost use Rattle.fast_check_build_unique.specs.Modules.{KeepsModules};

/// The law of hidden edits for whole packages: let two inputs of a build be settled and in lockstep, without errors of the finder and used items of a
/// cache, and let the versions of each module differ by hidden code alone. Then the builds answer the same, one by one: the same skeletons, or the same
/// diagnostics, under the renamings of positions. Hidden is what is private in the first input; that the same is private in the second follows.
///
/// With errors of the finder, each module whose versions differ by hidden code alone is still transformed alike.
///
/// The example is of two such inputs: versions of a package whose only module exports one function. Its id and position differ.
///
/// The law holds of the definitions, and so of the answers of `build_fast_check_type_graph`, `find_public_ranges` and `transform`; a call of this
/// function does nothing.
pub fn hidden_edit_of_packages()
    ensures builds { KeepsBuilds }
    ensures modules { KeepsModules }
    ensures of_two_versions { TwoVersions }
{}
