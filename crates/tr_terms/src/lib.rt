//! The terms that all crates share: limits, moments, modes, geometries, offsets and names.
//! Each limit of the product is defined here alone, in `limits`, and specifications cite it from here.
//!
//! # Example
//!
//! ```
//! let name = Name::new("app");             // Some; none for "", "9lives", "a/b" or 65 letters
//! let moment = Moment::new(1_700_000_000_000_000_000);
//! let geometry = Geometry::new(4_096, 4);  // sub-buffers of 4,096 bytes, four in a ring
//! ```
//!
//! # What is proved
//!
//! - A name is 1 to 64 letters, digits and underscores, a letter first, and every such text is one. It has no slash and no dot,
//!   so no name leads to another folder (`Name::new`: `succeeds`, `value`; `as_str`: `value`, `name`, `plain`).
//! - A moment, an offset and a geometry are made exactly of the numbers within their limits, and their numbers are within them
//!   (`Moment::new`: `succeeds`, `value`; `get`, `later`: `value`, `within`; `OffsetMinutes::new`: `succeeds`, `value`; `get`:
//!   `value`, `within`; `Geometry::new` (`geometry_of`); `size`, `count`: `value`, `within`).
//!
//! # What is only tested
//!
//! The texts that `thiserror` prints for faults. Their codes and names are proved.
#![tactic(auto)]

mod geometry;
pub mod limits;
mod mode;
mod moment;
mod name;
mod offset;
mod session_mode;

pub use geometry::{Geometry, GeometryFault};
pub use mode::Mode;
pub use moment::Moment;
pub use name::Name;
pub use offset::OffsetMinutes;
pub use session_mode::SessionMode;
