//! The places of a form's fields, as the tables of fields that are gone down name them: its range is the first, where it has one.

pub(crate) const SECOND: usize = 1;

pub(crate) const THIRD: usize = 2;

pub(crate) const FOURTH: usize = 3;

pub(crate) const FIFTH: usize = 4;
