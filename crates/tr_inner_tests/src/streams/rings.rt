//! What a stream's ring holds, record by record, worked by hand: sub-buffers of 256 bytes, two to a ring.

use super::Step::{self, Cut, Offer, Offers, Ring, Start, Stop, Take};
use super::assert_lists;
use tr_stream::{CutDone, OfferFault, Offered, TakeFault, Taken};
use tr_terms::{Mode, SessionMode};

static RINGS: [(Mode, &[Step]); 4] = [
    // a record has the moment that was stored
    (
        Mode::Discard,
        &[
            Start,
            Ring(&[]),
            Offer(9, 0, Ok(Offered::Stored { serial: 0, seq: 0 })),
            Ring(&[(0, 9, 0)]),
            Offer(5, 0, Ok(Offered::Stored { serial: 1, seq: 0 })),
            Ring(&[(0, 9, 0), (1, 9, 0)]),
            Stop,
            Ring(&[(0, 9, 0), (1, 9, 0)]),
        ],
    ),
    // a refused offer isn't in the ring, and its moment wasn't stored
    (
        Mode::Discard,
        &[
            Offer(7, 152, Err(OfferFault::Inactive)),
            Ring(&[]),
            Start,
            Offer(8, 153, Err(OfferFault::TooBig)),
            Ring(&[]),
            Offer(2, 152, Ok(Offered::Stored { serial: 0, seq: 0 })),
            Ring(&[(0, 2, 152)]),
        ],
    ),
    // what is consumed leaves the ring: two such records fill a sub-buffer; record 4 is discarded, and a shorter one is
    // stored after it; the cut's moment is the last one
    (
        Mode::Discard,
        &[
            Start,
            Offers(1, 6, 50),
            Offer(6, 4, Ok(Offered::Stored { serial: 5, seq: 1 })),
            Ring(&[(0, 1, 50), (1, 2, 50), (2, 3, 50), (3, 4, 50), (5, 6, 4)]),
            Take(Ok(Taken {
                seq: 0,
                count: 2,
                chunk: 0,
            })),
            Ring(&[(2, 3, 50), (3, 4, 50), (5, 6, 4)]),
            Take(Err(TakeFault::Nothing)),
            Ring(&[(2, 3, 50), (3, 4, 50), (5, 6, 4)]),
            Cut(
                10,
                Ok(CutDone {
                    chunk: 0,
                    packets: 1,
                    records: 3,
                }),
            ),
            Ring(&[]),
            Offer(0, 4, Ok(Offered::Stored { serial: 6, seq: 2 })),
            Ring(&[(6, 10, 4)]),
        ],
    ),
    // what is overwritten leaves the ring
    (
        Mode::Overwrite,
        &[
            Start,
            Offers(1, 5, 64),
            Ring(&[(0, 1, 64), (1, 2, 64), (2, 3, 64), (3, 4, 64)]),
            Offer(
                5,
                64,
                Ok(Offered::StoredOver {
                    serial: 4,
                    seq: 2,
                    gone_seq: 0,
                    gone_count: 2,
                }),
            ),
            Ring(&[(2, 3, 64), (3, 4, 64), (4, 5, 64)]),
            Take(Ok(Taken {
                seq: 1,
                count: 2,
                chunk: 0,
            })),
            Ring(&[(4, 5, 64)]),
        ],
    ),
];

#[test]
fn the_ring_holds_what_was_stored(rt: HostRuntime) {
    assert_lists(&rt, rt.alloc(), SessionMode::Local, &RINGS);
}
