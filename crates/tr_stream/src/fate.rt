//! What became of an accepted offer.

ghost use Rattle.std.specs.Prelude.{◌≡◌};
ghost use Rattle.tr_stream.specs.Fates.{loss_of};

use tr_terms::Mode;

/// What became of an accepted offer, as things are now.
#[derive(Clone, Copy, Debug, PartialEq, Eq)]
pub enum Fate {
    /// The ring was full and discarded it.
    Discarded,
    /// Its record was stored, and later overwritten with its sub-buffer.
    Overwritten,
    /// Its record is in the ring.
    InRing {
        /// The number of its sub-buffer.
        seq: u64,
    },
    /// Its record was stored, and later cleared with its packet.
    Cleared {
        /// The number of its packet.
        seq: u64,
    },
    /// Its record was consumed.
    InChunk {
        /// The trace chunk that it is in.
        chunk: u64,
        /// The number of its packet.
        seq: u64,
    },
    /// It was offered before the first part began that isn't forgotten.
    Forgotten,
}

/// The fate of a record that is no longer held: each mode loses records in only one way.
pub fn loss(mode: Mode) -> Fate
    ensures { result ≡ loss_of mode }
{
    match mode {
        Mode::Discard => Fate::Discarded,
        Mode::Overwrite => Fate::Overwritten,
    }
}
