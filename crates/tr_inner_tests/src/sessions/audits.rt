//! The audit of the files that streams leave.

use super::Step::{Channel, Offers as Made, ReleaseAll, Rotate, Start, Threads};
use super::{PAYLOAD, Step, after, assert_same};
use std::alloc::Global;
use std::process::Abort;
use tr_chunk::{AuditCause, AuditFault, audit_stream, write_part};
use tr_packet::PacketFault;
use tr_record::MemorySink;
use tr_stream::Stream;
use tr_terms::{Geometry, Mode, SessionMode};
use tr_testing::moment;
use uuid::Uuid;

/// Offers at the moments from the first number up to the second; the third is how many bytes each payload has.
type Offers = (u64, u64, usize);

/// Makes an offer to a stream, whatever the answer.
fn offer(rt: &impl Abort, stream: &mut Stream, at: u64, len: usize) {
    let payload = PAYLOAD.get(..len).expect(rt, "a short payload");
    let _ = stream.offer(moment(at), 7, payload);
}

/// Makes offers to a stream.
fn make_offers(rt: &impl Abort, stream: &mut Stream, offers: &[Offers]) {
    for (from, to, len) in offers {
        for at in *from..*to {
            offer(rt, stream, at, *len);
        }
    }
}

/// A stream's mode, its offers before a take and after it, those after a clear if it is cleared, and the moment of the cut that
/// ends its first part.
type Life = (
    Mode,
    &'static [Offers],
    &'static [Offers],
    Option<&'static [Offers]>,
    u64,
);

/// The file of the first part of a stream of two sub-buffers of 256 bytes.
fn file(rt: &impl Abort, alloc: Global, (mode, before, after, cleared, cut): Life) -> Vec<u8> {
    let geometry = Geometry::new(256, 2).expect(rt, "a geometry");
    let uuid = Uuid::from_u128(1);
    let mut stream = Stream::new(alloc, uuid, 0, geometry, mode, SessionMode::Local).expect(
        rt, "memory",
    );
    stream.set_active(true);
    make_offers(rt, &mut stream, before);
    let _ = stream.take();
    make_offers(rt, &mut stream, after);
    if let Some(offers) = cleared {
        let _ = stream.clear();
        make_offers(rt, &mut stream, offers);
    }
    let _ = stream.cut(moment(cut));
    part_file(rt, alloc, &stream, 0)
}

/// The file of a part of a stream, which wasn't released.
fn part_file(rt: &impl Abort, alloc: Global, stream: &Stream, id: u64) -> Vec<u8> {
    let part = stream.part(id).expect(rt, "a part");
    assert!(rt; !part.is_released());
    let mut sink = MemorySink::new(alloc, 1);
    write_part(&mut sink, part).expect(rt, "a file");
    sink.into_bytes()
}

/// A stream that discards one of six records: 484 bytes, with packets at 0 and 228.
const DISCARDING: Life = (Mode::Discard, &[(1, 6, 50), (6, 7, 4)], &[], None, 10);

/// A stream that overwrites two packets of two records each: 768 bytes.
const OVERWRITING: Life = (Mode::Overwrite, &[(1, 7, 64)], &[(7, 11, 64)], None, 20);

/// The stream that discards, cleared before one more offer: 108 bytes.
const DISCARDING_CLEARED: Life = (
    Mode::Discard,
    &[(1, 6, 50), (6, 7, 4)],
    &[],
    Some(&[(7, 8, 4)]),
    10,
);

/// The stream that overwrites, cleared before one more offer: 168 bytes.
const OVERWRITING_CLEARED: Life = (
    Mode::Overwrite,
    &[(1, 7, 64)],
    &[(7, 11, 64)],
    Some(&[(11, 12, 64)]),
    20,
);

/// What an audit says of a file.
#[derive(Clone, Copy)]
struct Told {
    packets: u64,
    records: u64,
    gaps: &'static [(u64, u64)],
    last_seq: u64,
    last_serial: u64,
    last_lost: u64,
}

/// What is found of the stream that discards.
const DISCARDED: Told = Told {
    packets: 2,
    records: 5,
    gaps: &[],
    last_seq: 1,
    last_serial: 5,
    last_lost: 1,
};

/// What is found of the stream that overwrites.
const OVERWRITTEN: Told = Told {
    packets: 3,
    records: 6,
    gaps: &[(0, 1), (2, 1)],
    last_seq: 4,
    last_serial: 9,
    last_lost: 0,
};

/// What is found of the stream that discards, once it was cleared: what was discarded stays so.
const DISCARDED_CLEARED: Told = Told {
    packets: 1,
    records: 1,
    gaps: &[(0, 2)],
    last_seq: 2,
    last_serial: 6,
    last_lost: 1,
};

/// What is found of the stream that overwrites, once it was cleared.
const OVERWRITTEN_CLEARED: Told = Told {
    packets: 1,
    records: 1,
    gaps: &[(0, 5)],
    last_seq: 5,
    last_serial: 10,
    last_lost: 0,
};

/// Asserts what the audit says of a file of the trace with this identifier.
fn assert_audited(rt: &impl Abort, alloc: Global, uuid: &Uuid, bytes: &[u8], told: &Told) {
    let audit = audit_stream(alloc, uuid, 0, &[bytes]).expect(rt, "an audit");
    assert_same(
        rt,
        (audit.packets, audit.records),
        (told.packets, told.records),
    );
    assert_same(rt, audit.gaps.as_slice(), told.gaps);
    assert_same(
        rt,
        (audit.last_seq, audit.last_serial),
        (Some(told.last_seq), Some(told.last_serial)),
    );
    assert_same(rt, audit.last_lost, told.last_lost);
}

#[test]
fn the_audit_finds_what_was_discarded_overwritten_and_cleared(rt: HostRuntime) {
    for (life, size, told) in [
        (DISCARDING, 484, DISCARDED),
        (OVERWRITING, 768, OVERWRITTEN),
        (DISCARDING_CLEARED, 108, DISCARDED_CLEARED),
        (OVERWRITING_CLEARED, 168, OVERWRITTEN_CLEARED),
    ] {
        let bytes = file(&rt, rt.alloc(), life);
        assert_same(&rt, bytes.len(), size);
        assert_audited(&rt, rt.alloc(), &Uuid::from_u128(1), &bytes, &told);
    }
}

/// Asserts the fault of the audit of these pieces, if any.
fn assert_fault(
    rt: &impl Abort,
    alloc: Global,
    pieces: &[&[u8]],
    fault: Option<(u64, u64, AuditCause)>,
) {
    let found = match audit_stream(alloc, &Uuid::from_u128(1), 0, pieces) {
        Ok(_) => None,
        Err(
            AuditFault {
                piece,
                offset,
                cause,
            },
        ) => Some((piece, offset, cause)),
    };
    assert_same(rt, found, fault);
}

#[test]
fn the_audit_names_the_packet_at_fault(rt: HostRuntime) {
    let mut bytes = file(&rt, rt.alloc(), DISCARDING);
    let cut = bytes.get(..483).expect(&rt, "483 bytes");
    let short = AuditCause::Packet(PacketFault::Short);
    assert_fault(&rt, rt.alloc(), &[cut], Some((0, 228, short)));
    let again = AuditCause::NumberRepeat;
    assert_fault(&rt, rt.alloc(), &[&bytes, &bytes], Some((1, 0, again)));
    *bytes.first_mut().expect(&rt, "a byte") = 0;
    let bad = AuditCause::Packet(PacketFault::BadMagic);
    assert_fault(&rt, rt.alloc(), &[&bytes], Some((0, 0, bad)));
    assert_fault(&rt, rt.alloc(), &[], None);
}

/// Two archives of one stream, each of two packets of two records, of which the first is released.
static FIRST_RELEASED: [Step; 8] = [
    Channel("c", (256, 2, Mode::Discard), Ok(())),
    Threads("c", 0, 1),
    Start(0, Ok(())),
    Made(1, 5, 50),
    Rotate(10, Ok((0, 0, 10))),
    Made(11, 15, 50),
    Rotate(20, Ok((1, 10, 20))),
    ReleaseAll(0, Ok(())),
];

/// What is found of the second one alone: the two packets before it are absent.
const SECOND: Told = Told {
    packets: 2,
    records: 4,
    gaps: &[(0, 2)],
    last_seq: 3,
    last_serial: 7,
    last_lost: 0,
};

#[test]
fn the_audit_passes_what_a_release_left(rt: HostRuntime) {
    let session = after(&rt, rt.alloc(), SessionMode::Local, &FIRST_RELEASED);
    let stream = session.stream(0).expect(&rt, "a stream");
    let bytes = part_file(&rt, rt.alloc(), stream, 1);
    assert_same(&rt, bytes.len(), 456);
    assert_audited(&rt, rt.alloc(), &Uuid::nil(), &bytes, &SECOND);
    drop(session);
}
