//! The worked example of a snapshot session of one stream.

ghost use Rattle.std.specs.Prelude.{◌≡◌};

use super::super::{assert_started, built};
use super::{
    Offer, PacketShown, StreamShown, assert_offers, assert_shown, snapshot_beside, snapshot_plan,
};
use std::marker::Brand;
use std::process::Abort;
use std::sync::Wait;
use std::test::*;
use tr_shared::{Names, Plan};
use tr_stream::Offered;
use tr_testing::moment;

/// The offers of the worked example: two records fill a sub-buffer, and the fifth overwrites the first two.
static SIX_OFFERS: [Offer; 6] = [
    (0, 1, 7, &[0x61; 64], Offered::Stored { serial: 0, seq: 0 }),
    (0, 2, 7, &[0x61; 64], Offered::Stored { serial: 1, seq: 0 }),
    (0, 3, 7, &[0x61; 64], Offered::Stored { serial: 2, seq: 1 }),
    (0, 4, 7, &[0x61; 64], Offered::Stored { serial: 3, seq: 1 }),
    (
        0,
        5,
        7,
        &[0x61; 64],
        Offered::StoredOver {
            serial: 4,
            seq: 2,
            gone_seq: 0,
            gone_count: 2,
        },
    ),
    (0, 6, 7, &[0x61; 64], Offered::Stored { serial: 5, seq: 2 }),
];

static AFTER_SIX_OFFERS: [StreamShown; 1] = [StreamShown {
    offered: 6,
    packets: &[
        PacketShown {
            seq: 1,
            begin: 3,
            end: Some(5),
            records: &[(2, 3, 7, &[0x61; 64]), (3, 4, 7, &[0x61; 64])],
        },
        PacketShown {
            seq: 2,
            begin: 5,
            end: None,
            records: &[(4, 5, 7, &[0x61; 64]), (5, 6, 7, &[0x61; 64])],
        },
    ],
}];

static SEVENTH_OFFER: [Offer; 1] = [(
    0,
    11,
    7,
    &[0x61; 64],
    Offered::StoredOver {
        serial: 6,
        seq: 3,
        gone_seq: 1,
        gone_count: 2,
    },
)];

static AFTER_SEVEN_OFFERS: [StreamShown; 1] = [StreamShown {
    offered: 7,
    packets: &[
        PacketShown {
            seq: 2,
            begin: 5,
            end: Some(11),
            records: &[(4, 5, 7, &[0x61; 64]), (5, 6, 7, &[0x61; 64])],
        },
        PacketShown {
            seq: 3,
            begin: 11,
            end: None,
            records: &[(6, 11, 7, &[0x61; 64])],
        },
    ],
}];

/// The worked example of one stream, with its producer or without: two snapshots at 10 show the same, and the one at 12 shows
/// what the seventh offer left.
fn shows_example<N: Names>(rt: &(impl Abort + Wait), plan: Plan, beside: Option<usize>)
    requires { plan ≡ N.plan }
{
    let (shared, mut producers) = built::<N>(rt, plan);
    assert_started(rt, &shared, 0, Ok(()));
    assert_offers(rt, &shared, &mut producers, &SIX_OFFERS);
    for _ in 0..2 {
        let snapshot = snapshot_beside(rt, &shared, &mut producers, beside, moment(10));
        assert_shown(rt, snapshot, (10, &[10]), &AFTER_SIX_OFFERS);
    }
    assert_offers(rt, &shared, &mut producers, &SEVENTH_OFFER);
    let snapshot = snapshot_beside(rt, &shared, &mut producers, beside, moment(12));
    assert_shown(rt, snapshot, (12, &[12]), &AFTER_SEVEN_OFFERS);
    drop(producers);
    drop(shared);
}

#[test]
fn a_snapshot_shows_the_example(rt: HostRuntime) {
    shows_example::<Brand>(&rt, snapshot_plan(&rt, rt.alloc(), 1), None);
}

#[test]
fn a_snapshot_with_its_producer_shows_the_example(rt: HostRuntime) {
    shows_example::<Brand>(&rt, snapshot_plan(&rt, rt.alloc(), 1), Some(0));
}
