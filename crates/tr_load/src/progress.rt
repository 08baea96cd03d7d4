//! Where a load says how far it is.

/// Where a load that is watched says how far it is, while it runs.
pub trait Progress {
    /// Whether anybody looks.
    fn is_shown(&self) -> bool;

    /// Says that `offered` records were offered so far.
    fn show(&self, offered: u128);
}

/// Nobody looks.
#[derive(Clone, Copy)]
pub struct NoProgress;

impl Progress for NoProgress {
    fn is_shown(&self) -> bool {
        false
    }

    fn show(&self, _offered: u128) {}
}
