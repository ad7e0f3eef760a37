//! What may differ where two parts of modules agree, as a contract.
ghost use Rattle.fast_check_meaning_skeleton.specs.HiddenChanges.{HidesChanges};
ghost use Rattle.fast_check_meaning_skeleton.specs.HiddenRules.{HidesByRules};

/// The law that agreement asks for nothing that is hidden: of each of eight kinds of hidden change two parts that differ by it
/// agree. These are a body and a default behind a written type, a default that shows the same type, the operand of an assertion,
/// the elements of a pattern, the signature and the body of a private method, decorators, and an expression that may not stay.
/// So it is of further rules that hide something, each by itself: a body behind no written type, an arrow, a pattern, a property,
/// an accessor, a setter, a constructor, a member that goes without a word, and what is at fault as a whole.
/// Both hold of the definitions; it does nothing when it is called.
pub fn hidden_changes()
    ensures law { HidesChanges }
    ensures rules { HidesByRules }
{}
