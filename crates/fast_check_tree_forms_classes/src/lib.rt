//! The forms of functions, classes and their members.
//!
//! A form reads a node where its `N` is a `Part` and its `T` a `&str`, and makes one where they are a `Tree` and an `Atom`.
//!
//! `of` reads a node by the places of its fields, whatever its kind is. A field that is not there is absent, false, empty or
//! `DUMMY_SP`. `into_tree` fails only if memory runs out.
// Written by forms/write.py from forms/forms.txt.
#![tactic(auto)]

mod classes;
mod fields;
mod functions;
mod methods;

pub use classes::{Class, Constructor, StaticBlock, TsIndexSignature, TsParamProp};
pub use fields::{AutoAccessor, ClassProp, PrivateProp};
pub use functions::{Decorator, Function, Param};
pub use methods::{ClassMethod, PrivateMethod};
