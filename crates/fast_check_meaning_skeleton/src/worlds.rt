//! The law of two worlds, and the law of `#private`, as contracts.
ghost use Rattle.fast_check_tree_comments.specs.declared.comments.Comments.{Comments};
ghost use Rattle.fast_check_meaning_skeleton.specs.ModuleFacts.{ModuleFacts};
ghost use Rattle.fast_check_meaning_skeleton.specs.Worlds.{TwoWorlds};
ghost use Rattle.fast_check_meaning_skeleton.specs.ClassExample.{ClassExample};
ghost use Rattle.fast_check_meaning_skeleton.specs.Example.{Example};
ghost use Rattle.fast_check_meaning_skeleton.specs.ExpandoExample.{ExpandoExample};
ghost use Rattle.fast_check_meaning_skeleton.specs.HashMark.{HashMarked};
ghost use Rattle.fast_check_meaning_skeleton.specs.HiddenChangesExample.{HiddenChangesExample};
ghost use Rattle.fast_check_meaning_skeleton.specs.HiddenItems.{HidesItems};
ghost use Rattle.fast_check_meaning_skeleton.specs.ModuleExample.{ModuleExample};
ghost use Rattle.fast_check_meaning_skeleton.specs.NamespaceExample.{NamespaceExample};
ghost use Rattle.fast_check_meaning_skeleton.specs.PrivateClassExample.{PrivateClassExample};
ghost use Rattle.fast_check_meaning_skeleton.specs.SilentAssignmentExample.{SilentAssignmentExample};

use fast_check_tree_syntax::Tree;

/// The law that a hidden edit changes no skeleton, no fault and no comment that stays: of two modules that agree but for hidden code,
/// under a renaming of positions and scope numbers, and whose comments agree at renamed positions, the skeletons and the faults are
/// the same under it, and at renamed positions the comments that stay. The law holds of the definitions, and so of the answers of
/// `transform`; a call of this function does nothing. There are such modules: the example is one documented statement, and the same
/// behind a hidden function, which is documented too, and with another value. Another one has a function and a class on both sides, of
/// which a body, the signature of a private method and a static block differ. The modules of the next one import a name and export a
/// function by default: what else they import from there, and the body of the function, differ. Those of another one have a namespace,
/// in which a statement differs. Those of another one assign a property to a function: its body differs, and what the value asserts to
/// be a number. Of two more the first has a class that is not public, and the second has not. So it is of two with an assignment that
/// is not public. The last two differ by hidden changes of all kinds.
pub fn two_worlds(first: &Tree, second: &Tree)
    ensures law { (a : ModuleFacts) (c : Comments) (b : ModuleFacts) (d : Comments) → TwoWorlds a first.now c b second.now d }
    ensures not_empty { Example }
    ensures of_classes { ClassExample }
    ensures of_modules { ModuleExample }
    ensures of_namespaces { NamespaceExample }
    ensures of_expandos { ExpandoExample }
    ensures of_private_classes { PrivateClassExample }
    ensures of_silent_assignments { SilentAssignmentExample }
    ensures of_all_changes { HiddenChangesExample }
{
    let _ = first;
    let _ = second;
}

/// The law that agreement asks for nothing that is hidden: each item that is not public goes without a word, whatever stands in it, and
/// so does each declarator and specifier; two values of declarators that show the same type agree. The law holds of the definitions; a
/// call of this function does nothing.
pub fn hidden_items()
    ensures law { HidesItems }
{}

/// The law on `#private`: in the skeleton of a class that is not ambient `#private!: unknown` stands first exactly if the
/// class had a method, a property or an accessor with a hash name, and no other member with a hash name stands there. `class`
/// is a `Class`. The law holds of the definitions, and so of the answers of `transform`; a call of this function does nothing.
pub fn hash_mark(class: &Tree)
    ensures law { HashMarked class.now }
{
    let _ = class;
}
