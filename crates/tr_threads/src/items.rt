//! What feeders offer, and what they log.

ghost use Rattle.std.specs.Prelude.{◌≡◌};

use std::marker::Model;
use tr_stream::Payload;
use tr_terms::Moment;

/// An offer that a feeder is to make.
#[derive(Drop)]
pub struct Item {
    /// When its event happened.
    pub moment: Moment,
    /// The kind of event that it records.
    pub id: u32,
    /// The bytes of its record.
    pub payload: Payload,
}

/// Items in order. Contracts see their list.
#[derive(Drop)]
pub struct Items {
    items: Vec<Item>,
}

impl Model for Items {
    ghost use Rattle.std.specs.Prelude.{List};
    ghost use Rattle.tr_threads.specs.declared.items.Item.{Item};

    ghost Value = { List Item };

    ghost view = { λ i. i.items.items };
}

impl Items {
    /// These items. It takes no memory.
    pub fn new(items: Vec<Item>) -> Items
        ensures { result ≡ items.items }
    {
        Items { items }
    }

    /// The items, in order.
    pub fn as_slice(&self) -> &[Item]
        ensures { result.now ≡ self.now }
    {
        self.items.as_slice()
    }

    /// The items themselves. It takes no memory.
    pub fn into_vec(self) -> Vec<Item>
        ensures { result.items ≡ self }
    {
        let Items { items } = self;
        items
    }
}
