//! Snapshots of a shared session, and what is held while a closure runs.

ghost use Rattle.std.specs.Prelude.{◌≡◌};

mod example;

use super::rotating::{assert_begun, assert_rotated, assert_ticked};
use super::{assert_offered, assert_started, assert_stopped, built, stored};
use crate::plans::{assert_same, last, plan_of, plan_with};
use std::alloc::Global;
use std::marker::Brand;
use std::process::Abort;
use std::sync::Wait;
use std::test::*;
use tr_book::StreamSnap;
use tr_packet::{Head, PacketView};
use tr_schedule::Schedule;
use tr_session::Ticked;
use tr_session_book::SessionFault;
use tr_shared::{Names, Offers, Plan, Producer, Shared};
use tr_snapshot::Snapshot;
use tr_stream::Offered;
use tr_terms::{Mode, Moment, SessionMode};
use tr_testing::moment;
use uuid::Uuid;

/// A plan of `threads` streams with two sub-buffers of 256 bytes each, of a snapshot session: a packet's records have 176
/// bytes, each its payload's and 24 more.
fn snapshot_plan(rt: &impl Abort, alloc: Global, threads: u64) -> Plan {
    let plan = plan_with(
        rt,
        alloc,
        SessionMode::Snapshot,
        Mode::Overwrite,
        256,
        threads,
    );
    plan.expect(rt, "a plan")
}

/// A record of a stream: its serial, its moment, its id and its payload.
type Record = (u64, u64, u32, &'static [u8]);

/// What is shown of a packet.
struct PacketShown {
    seq: u64,
    begin: u64,
    /// None of the open one.
    end: Option<u64>,
    records: &'static [Record],
}

/// What is shown of a stream.
struct StreamShown {
    offered: u64,
    packets: &'static [PacketShown],
}

/// Asserts which records a packet has.
fn assert_records(rt: &impl Abort, packet: &PacketView<'_>, records: &[Record]) {
    assert_same(rt, packet.count(), records.len());
    let mut shown = packet.records();
    'records: for record in records {
        let found = shown.next().expect(rt, "a record");
        let found = (
            found.serial(),
            found.moment().get(),
            found.id(),
            found.payload(),
        );
        assert_same(rt, found, *record);
    }
    assert_same(rt, shown.next().is_none(), true);
    let last = records.last().expect(rt, "a last record");
    assert_same(rt, packet.last_serial(), last.0);
}

/// Asserts what is shown of the stream of this number, whose open packet ends at this moment.
fn assert_stream(
    rt: &impl Abort,
    snap: &StreamSnap,
    (number, open_end): (u64, u64),
    want: &StreamShown,
) {
    let found = (snap.stream(), snap.offered(), snap.lost());
    assert_same(rt, found, (number, want.offered, 0));
    let mut shown = snap.packets();
    assert_same(rt, shown.len(), want.packets.len());
    'packets: for packet in want.packets {
        let head = Head {
            uuid: Uuid::nil(),
            stream: number,
            begin: moment(packet.begin),
            end: moment(packet.end.unwrap_or(open_end)),
            seq: packet.seq,
            lost: 0,
        };
        let found = shown.next().expect(rt, "a packet");
        assert_same(rt, found.head(), head);
        assert_records(rt, &found, packet.records);
    }
}

/// A snapshot: the number of the stream whose producer is lent, if one is, when it is asked for, the moment that it stores, and
/// the moments at which the open packets of the streams end.
type Look = (Option<usize>, u64, u64, &'static [u64]);

/// What is shown of the streams, and the snapshots of them.
struct Stage {
    streams: &'static [StreamShown],
    looks: &'static [Look],
}

/// Asserts what a snapshot shows.
fn assert_shown(
    rt: &impl Abort,
    snapshot: Result<Snapshot, SessionFault>,
    (stored, ends): (u64, &[u64]),
    want: &[StreamShown],
) {
    let snapshot = snapshot.expect(rt, "a snapshot");
    assert_same(rt, snapshot.moment().get(), stored);
    assert_same(rt, snapshot.streams().len(), want.len());
    let mut shown = snapshot.streams().iter();
    let mut ends = ends.iter();
    let mut number: u64 = 0;
    'streams: for stream in want {
        let snap = shown.next().expect(rt, "a stream");
        let end = ends.next().expect(rt, "an end");
        assert_stream(rt, snap, (number, *end), stream);
        number = number.wrapping_add(1);
    }
}

/// A snapshot, with the producer of the stream of this number if there is one.
fn snapshot_beside<N: Names>(
    rt: &(impl Abort + Wait),
    shared: &Shared<N>,
    producers: &mut Vec<Producer<N>>,
    beside: Option<usize>,
    at: Moment,
) -> Result<Snapshot, SessionFault> {
    match beside {
        Some(i) => {
            let producer = producers.get_mut(i).expect(rt, "a producer");
            shared.snapshot_with(rt, producer, at)
        }
        None => shared.snapshot(rt, at),
    }
}

/// Asserts what the snapshots of a stage show, one after another.
fn assert_stage<N: Names>(
    rt: &(impl Abort + Wait),
    shared: &Shared<N>,
    producers: &mut Vec<Producer<N>>,
    stage: &Stage,
) {
    for (beside, asked, stored, ends) in stage.looks {
        let snapshot = snapshot_beside(rt, shared, producers, *beside, moment(*asked));
        assert_shown(rt, snapshot, (*stored, ends), stage.streams);
    }
}

/// An offer: the stream's number, the moment, the id and the payload, and what is answered.
type Offer = (usize, u64, u32, &'static [u8], Offered);

/// Makes the offers, and asserts what they answer.
fn assert_offers<N: Names>(
    rt: &(impl Abort + Wait),
    shared: &Shared<N>,
    producers: &mut Vec<Producer<N>>,
    offers: &[Offer],
) {
    for (i, at, id, payload, want) in offers {
        let producer = producers.get_mut(*i).expect(rt, "a producer");
        let answer = producer.offer(rt, shared, moment(*at), *id, payload);
        assert_same(rt, (*i, *at, answer), (*i, *at, Ok(*want)));
    }
}

/// The first stream's offers make three packets, of which the third overwrites the first, and the second stream's make one.
/// The first stream's last offer is at an earlier moment than the one before it.
static OFFERS: [Offer; 8] = [
    (0, 5, 7, &[0x62; 64], Offered::Stored { serial: 0, seq: 0 }),
    (0, 9, 8, &[0x63; 64], Offered::Stored { serial: 1, seq: 0 }),
    (1, 30, 21, b"second", Offered::Stored { serial: 0, seq: 0 }),
    (
        0,
        12,
        9,
        &[0x64; 100],
        Offered::Stored { serial: 2, seq: 1 },
    ),
    (
        0,
        15,
        10,
        &[0x65; 28],
        Offered::Stored { serial: 3, seq: 1 },
    ),
    (
        0,
        20,
        11,
        b"abc",
        Offered::StoredOver {
            serial: 4,
            seq: 2,
            gone_seq: 0,
            gone_count: 2,
        },
    ),
    (0, 18, 12, b"", Offered::Stored { serial: 5, seq: 2 }),
    (
        1,
        40,
        22,
        b"of the second",
        Offered::Stored { serial: 1, seq: 0 },
    ),
];

/// What is shown after these offers: a closed packet of the first stream ends with the offer that closed it, and an open one at
/// the moment that the snapshot stores or at its stream's last one, whichever is later.
static AFTER_OFFERS: Stage = Stage {
    streams: &[
        StreamShown {
            offered: 6,
            packets: &[
                PacketShown {
                    seq: 1,
                    begin: 12,
                    end: Some(20),
                    records: &[(2, 12, 9, &[0x64; 100]), (3, 15, 10, &[0x65; 28])],
                },
                PacketShown {
                    seq: 2,
                    begin: 20,
                    end: None,
                    records: &[(4, 20, 11, b"abc"), (5, 20, 12, b"")],
                },
            ],
        },
        StreamShown {
            offered: 2,
            packets: &[PacketShown {
                seq: 0,
                begin: 30,
                end: None,
                records: &[(0, 30, 21, b"second"), (1, 40, 22, b"of the second")],
            }],
        },
        StreamShown {
            offered: 0,
            packets: &[],
        },
    ],
    looks: &[
        (None, 10, 10, &[20, 40, 0]),
        (Some(1), 10, 10, &[20, 40, 0]),
        (Some(0), 25, 25, &[25, 40, 0]),
        (None, 3, 25, &[25, 40, 0]),
        (None, 50, 50, &[50, 50, 0]),
        (Some(1), 3, 50, &[50, 50, 0]),
        (Some(2), 3, 50, &[50, 50, 0]),
    ],
};

/// The first stream's offer begins a packet that overwrites the oldest one, and the third stream's is its first.
static LATER_OFFERS: [Offer; 2] = [
    (
        0,
        45,
        13,
        &[0x66; 110],
        Offered::StoredOver {
            serial: 6,
            seq: 3,
            gone_seq: 1,
            gone_count: 2,
        },
    ),
    (2, 90, 31, b"third", Offered::Stored { serial: 0, seq: 0 }),
];

static AFTER_LATER_OFFERS: Stage = Stage {
    streams: &[
        StreamShown {
            offered: 7,
            packets: &[
                PacketShown {
                    seq: 2,
                    begin: 20,
                    end: Some(45),
                    records: &[(4, 20, 11, b"abc"), (5, 20, 12, b"")],
                },
                PacketShown {
                    seq: 3,
                    begin: 45,
                    end: None,
                    records: &[(6, 45, 13, &[0x66; 110])],
                },
            ],
        },
        StreamShown {
            offered: 2,
            packets: &[PacketShown {
                seq: 0,
                begin: 30,
                end: None,
                records: &[(0, 30, 21, b"second"), (1, 40, 22, b"of the second")],
            }],
        },
        StreamShown {
            offered: 1,
            packets: &[PacketShown {
                seq: 0,
                begin: 90,
                end: None,
                records: &[(0, 90, 31, b"third")],
            }],
        },
    ],
    looks: &[
        (Some(0), 3, 50, &[50, 50, 90]),
        (None, 3, 50, &[50, 50, 90]),
        (Some(1), 70, 70, &[70, 70, 90]),
        (Some(2), 60, 70, &[70, 70, 90]),
        (None, 100, 100, &[100, 100, 100]),
        (Some(0), 0, 100, &[100, 100, 100]),
    ],
};

/// Offers to three streams and snapshots of them, and then more of both: no snapshot goes back in time, and none changes what
/// is offered after it.
fn shows<N: Names>(rt: &(impl Abort + Wait), plan: Plan)
    requires { plan ≡ N.plan }
{
    let (shared, mut producers) = built::<N>(rt, plan);
    let never = SessionFault::NeverStarted;
    assert_refused(rt, shared.snapshot(rt, moment(5)), never);
    assert_started(rt, &shared, 0, Ok(()));
    assert_offers(rt, &shared, &mut producers, &OFFERS);
    assert_stage(rt, &shared, &mut producers, &AFTER_OFFERS);
    assert_offers(rt, &shared, &mut producers, &LATER_OFFERS);
    assert_stage(rt, &shared, &mut producers, &AFTER_LATER_OFFERS);
    // no snapshot has stopped it
    assert_stopped(rt, &shared, Ok(()));
    let first = producers.first().expect(rt, "a producer");
    assert_same(rt, (first.offered(), first.overwritten()), (7, 4));
    drop(producers);
    drop(shared);
}

/// Asserts that a snapshot is refused for this reason.
fn assert_refused(rt: &impl Abort, snapshot: Result<Snapshot, SessionFault>, want: SessionFault) {
    assert_same(rt, snapshot.err(), Some(want));
}

#[test]
fn a_snapshot_shows_what_the_rings_hold(rt: HostRuntime) {
    shows::<Brand>(&rt, snapshot_plan(&rt, rt.alloc(), 3));
}

/// What a snapshot session refuses.
fn refuses<N: Names>(rt: &(impl Abort + Wait), plan: Plan)
    requires { plan ≡ N.plan }
{
    let (shared, _) = built::<N>(rt, plan);
    assert_started(rt, &shared, 5, Ok(()));
    let refused = SessionFault::SnapshotMode;
    assert_rotated(rt, &shared, 6, Err(refused));
    assert_begun(rt, &shared, 6, Err(refused));
    let schedule = Schedule::new(Some(1), None).expect(rt, "a schedule");
    assert_same(rt, shared.set_schedule(rt, Some(schedule)), Err(refused));
    assert_ticked(rt, &shared, 6, Ticked::Idle);
}

#[test]
fn a_snapshot_session_is_not_rotated(rt: HostRuntime) {
    refuses::<Brand>(&rt, snapshot_plan(&rt, rt.alloc(), 3));
}

/// A local session has no snapshots; and while a stream is held, offers to another one go on, and calls at the desk are
/// answered.
fn holds<N: Names>(rt: &(impl Abort + Wait), plan: Plan)
    requires { plan ≡ N.plan }
{
    let (shared, mut producers) = built::<N>(rt, plan);
    let mut second = last(rt, &mut producers);
    assert_started(rt, &shared, 0, Ok(()));
    let refused = SessionFault::NotSnapshotMode;
    assert_refused(rt, shared.snapshot(rt, moment(6)), refused);
    let beside = shared.snapshot_with(rt, &mut second, moment(6));
    assert_refused(rt, beside, refused);
    assert!(rt; 0 < shared.streams());
    shared.hold_stream(rt, 0, || {
        assert_offered(rt, &shared, &mut second, 1, 64, stored(0, 0))
    });
    let answers = shared.hold_stream(rt, 0, || {
        let set = shared.set_schedule(rt, None);
        let begun = shared.rotate_begin(rt, moment(2));
        (set, begun, shared.rotate_finish(rt))
    });
    let missing = Err(SessionFault::CutMissing);
    assert_same(rt, answers, (Ok(()), Ok(0), missing));
    drop(second);
    drop(producers);
    drop(shared);
}

#[test]
fn a_held_stream_stops_no_other_and_no_call_at_the_desk(rt: HostRuntime) {
    holds::<Brand>(&rt, plan_of(&rt, rt.alloc(), Mode::Discard, 2));
}
