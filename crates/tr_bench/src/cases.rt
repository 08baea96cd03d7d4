//! What is to become of the offers.

use tr_terms::{Geometry, Mode};

/// The ring of a round's stream, and whether packets are taken from it.
#[derive(Clone, Copy, Debug)]
pub struct Case {
    /// The size of a sub-buffer in bytes, and how many the ring has.
    pub geometry: Geometry,
    /// What a full ring does.
    pub mode: Mode,
    /// Whether packets are taken.
    pub takes: bool,
}

impl Case {
    /// The case of this name, if any.
    pub fn named(name: &str) -> Option<Case> {
        let (size, count, mode, takes) = match name {
            "stored" => (65_536, 64, Mode::Discard, false),
            "taken" => (4_096, 4, Mode::Discard, true),
            "discarded" => (4_096, 4, Mode::Discard, false),
            "overwriting" => (4_096, 4, Mode::Overwrite, false),
            _ => return None,
        };
        let geometry = Geometry::new(size, count).ok()?;
        Some(Case {
            geometry,
            mode,
            takes,
        })
    }
}
