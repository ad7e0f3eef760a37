//! The entry points of packages, which their exports name, and the faults of these.

mod entered;
mod faults;
mod joined;
mod members;
mod order;

pub use crate::entries::entered::entry_points;
pub use crate::entries::faults::entry_faults;
pub use crate::entries::members::MemberEntries;
pub use crate::entries::order::entry_order;
pub use crate::findings;
