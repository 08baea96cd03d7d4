//! What a feeder logged.

use tr_shared::{Names, Producer};
use tr_threads::{Items, LoggedProducer};

/// The items that a stream accepted, in order: the one of number `k`, from 0 on, was offered as serial `k`, if nothing had been
/// offered to the stream before.
#[derive(Drop)]
pub struct Log {
    /// The number of the stream.
    pub stream: u64,
    /// The items.
    pub items: Items,
}

/// A producer of a shared session with what it logged.
pub trait Logged<N: Names> {
    ghost use Rattle.std.specs.Prelude.{◌≡◌, List};
    ghost use Rattle.tr_seats.specs.Slots.{ProducerState};
    ghost use Rattle.tr_threads.specs.declared.items.Item.{Item};

    // the producer, and the items of its log
    ghost producer_of: { Self → ProducerState };

    ghost items_of: { Self → List Item };

    /// The producer, and the log of its stream. It takes no memory.
    fn into_parts(self) -> (Producer<N>, Log)
        ensures producer { result.0 ≡ producer_of self }
        ensures stream { result.1.stream ≡ (producer_of self).number }
        ensures items { result.1.items ≡ items_of self };
}

impl<N: Names> Logged<N> for LoggedProducer<Producer<N>> {
    ghost producer_of = { λ l. l.producer };

    ghost items_of = { λ l. l.log.items };

    fn into_parts(self) -> (Producer<N>, Log) {
        let (producer, items) = self.into_items();
        let stream = producer.stream() as u64;
        (producer, Log { stream, items })
    }
}
