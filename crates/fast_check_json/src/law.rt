//! The laws of JSON: JSON, tree and forms agree on which field stands where and how often, in which order fields are written, and what each word
//! and each variant means.
ghost use Rattle.fast_check_json.specs.Counts.{FieldsAreCounted};
ghost use Rattle.fast_check_json.specs.Places.{FieldsStandInPlace};
ghost use Rattle.fast_check_json.specs.Order.{FieldsAreInOrder};
ghost use Rattle.fast_check_json.specs.Variants.{VariantsAreNamed};
ghost use Rattle.fast_check_json.specs.Words.{WordsAreNamed};

/// The law that each field of each form stands where the schema has the member of its name. It holds of the
/// definitions, and so of what is read and printed and of what `of` reads; it does nothing when it is called.
pub fn places()
    ensures { FieldsStandInPlace }
{}

/// The law that the fields of each form are written in the order of their names. It holds of the definition of that order; it does
/// nothing when it is called.
pub fn order()
    ensures { FieldsAreInOrder }
{}

/// The law that each word of JSON stands for the word of the tree that has its name. It holds of the tables by which words
/// are read and printed; it does nothing when it is called.
pub fn words()
    ensures { WordsAreNamed }
{}

/// The law that each variant of each choice has swc's name, and holds what it names. It holds of the tables by which trees are read and
/// printed; it does nothing when it is called.
pub fn variants()
    ensures { VariantsAreNamed }
{}

/// The law that each field of each form stands once, may be missing or is a list, by its name. It holds of the tables by which trees are read
/// and printed, and decides what a missing member stands for; it does nothing when it is called.
pub fn counts()
    ensures { FieldsAreCounted }
{}
