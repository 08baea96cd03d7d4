//! Why a rotation is due.

ghost use Rattle.std.specs.Prelude.{◌≡◌};
ghost use Rattle.tr_schedule.specs.Due.{cause_word};

/// Why a rotation is due.
#[derive(Clone, Copy, Debug, PartialEq, Eq)]
pub enum Cause {
    /// The period is over.
    Timer,
    /// The streams have at least as many bytes as the limit says.
    Size,
}

impl Cause {
    /// Its word in answers: `timer` or `size`.
    pub fn word(self) -> &'static str
        ensures { result.now ≡ cause_word self }
    {
        match self {
            Cause::Timer => "timer",
            Cause::Size => "size",
        }
    }
}
