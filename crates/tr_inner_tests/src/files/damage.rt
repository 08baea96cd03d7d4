//! The file of two packets, cut to each length, and with each of its bytes damaged.

use super::{BOTH, NOTHING, Told, assert_fault, assert_same, assert_told, at, file, uuid};
use std::alloc::Global;
use std::process::Abort;
use tr_chunk::AuditCause::{self, Foreign, NumberRepeat, Packet, SerialRepeat};
use tr_packet::PacketFault::{
    BadMagic, BadRecord, BadSize, BadStreamId, MomentOrder, SerialOrder, Short,
};

/// What the audit is to say.
#[derive(Clone, Copy)]
enum Want {
    /// The packet that begins at this byte is at fault.
    Fault(u64, AuditCause),
    /// There is no packet.
    Nothing,
    /// There is the first packet.
    First,
    /// There are both packets, as they were written.
    Both,
    /// There are both, and the last number is the second packet's damaged one.
    LastNumber,
    /// There are both, and the last count of discarded records is the second packet's damaged one.
    LastDiscarded,
    /// There are both, and the last serial is the second packet's damaged one.
    LastSerial,
}

/// The number with one of its bytes inverted; the lowest is byte 0.
fn inverted(number: u64, place: usize) -> u64 {
    let mut bytes = number.to_le_bytes();
    if let Some(byte) = bytes.get_mut(place) {
        *byte ^= 0xFF;
    }
    u64::from_le_bytes(bytes)
}

/// What the audit of the first packet says.
const FIRST: Told<'static> = Told {
    packets: 1,
    records: 2,
    gaps: &[],
    last_seq: Some(0),
    last_serial: Some(1),
    last_lost: 0,
};

/// Asserts what the audit says of the file that was cut to this length or damaged at this byte, which has this place in
/// its row.
fn assert_wanted(
    rt: &impl Abort,
    alloc: Global,
    (case, place): (usize, usize),
    bytes: &[u8],
    want: Want,
) {
    let last = inverted(1, place);
    // No packet has the numbers between the first packet's 0 and the damaged one.
    let gap = [(1, last.saturating_sub(1))];
    let mut told = BOTH;
    match want {
        Want::Fault(offset, cause) => {
            let fault = at(0, offset, cause);
            return assert_fault(rt, alloc, case, (&uuid(), 0), &[bytes], fault);
        }
        Want::Nothing => told = NOTHING,
        Want::First => told = FIRST,
        Want::Both => {}
        Want::LastNumber => {
            told.gaps = &gap;
            told.last_seq = Some(last);
        }
        Want::LastDiscarded => told.last_lost = last,
        Want::LastSerial => told.last_serial = Some(inverted(5, place)),
    }
    assert_told(rt, alloc, case, &[bytes], &told);
}

/// For each length from the first number up to the second, what the audit of so many bytes of the file is to say.
static CUTS: [(usize, usize, Want); 4] = [
    (0, 1, Want::Nothing),
    (1, 228, Want::Fault(0, Packet(Short))),
    (228, 229, Want::First),
    (229, 484, Want::Fault(228, Packet(Short))),
];

/// Asserts what the audit says of the file cut to each length in turn. Gives the length after the last.
fn assert_cuts(rt: &impl Abort, alloc: Global, rows: &[(usize, usize, Want)]) -> usize {
    let file = file(rt, alloc);
    let mut next = 0;
    for (start, end, want) in rows {
        assert_same(rt, *start, next);
        for len in *start..*end {
            let bytes = file.get(..len).expect(rt, "a longer file");
            assert_wanted(rt, alloc, (len, 0), bytes, *want);
        }
        next = *end;
    }
    next
}

#[test]
fn a_cut_file(rt: HostRuntime) {
    let end = assert_cuts(&rt, rt.alloc(), &CUTS);
    assert_same(&rt, end, 484);
}

/// For each byte of the first packet, from the first number up to the second, what the audit is to say if it is damaged.
static FIRST_PACKET: [(usize, usize, Want); 18] = [
    (0, 4, Want::Fault(0, Packet(BadMagic))),
    (4, 20, Want::Fault(0, Foreign)),
    (20, 24, Want::Fault(0, Packet(BadStreamId))),
    (24, 32, Want::Fault(0, Foreign)),
    (32, 40, Want::Fault(0, Packet(MomentOrder))),
    // A later end is as good as the old one, unless it is above the limit.
    (40, 47, Want::Both),
    (47, 48, Want::Fault(0, Packet(MomentOrder))),
    (48, 64, Want::Fault(0, Packet(BadSize))),
    // The number is now above the second packet's, which is 1.
    (64, 72, Want::Fault(228, NumberRepeat)),
    // The audit reports only the last packet's discarded records, and no ids.
    (72, 84, Want::Both),
    (84, 92, Want::Fault(0, Packet(MomentOrder))),
    (92, 100, Want::Fault(0, Packet(SerialOrder))),
    (100, 104, Want::Fault(0, Packet(BadRecord))),
    (104, 158, Want::Both),
    (158, 166, Want::Fault(0, Packet(MomentOrder))),
    // The last serial is now above the second packet's first one, which is 2.
    (166, 174, Want::Fault(228, SerialRepeat)),
    (174, 178, Want::Fault(0, Packet(BadRecord))),
    (178, 228, Want::Both),
];

/// The same for the second packet, whose fields are 228 bytes further on. It has a third record, at 456.
static SECOND_PACKET: [(usize, usize, Want); 23] = [
    (228, 232, Want::Fault(228, Packet(BadMagic))),
    (232, 248, Want::Fault(228, Foreign)),
    (248, 252, Want::Fault(228, Packet(BadStreamId))),
    (252, 260, Want::Fault(228, Foreign)),
    (260, 268, Want::Fault(228, Packet(MomentOrder))),
    (268, 275, Want::Both),
    (275, 276, Want::Fault(228, Packet(MomentOrder))),
    (276, 292, Want::Fault(228, Packet(BadSize))),
    // The number is still above the first packet's, and no packet follows.
    (292, 300, Want::LastNumber),
    // This is the last packet, so the audit reports its discarded records.
    (300, 308, Want::LastDiscarded),
    (308, 312, Want::Both),
    (312, 320, Want::Fault(228, Packet(MomentOrder))),
    (320, 328, Want::Fault(228, Packet(SerialOrder))),
    (328, 332, Want::Fault(228, Packet(BadRecord))),
    (332, 386, Want::Both),
    (386, 394, Want::Fault(228, Packet(MomentOrder))),
    // A record of this packet follows, and its serial, 5, isn't above this one any more.
    (394, 402, Want::Fault(228, Packet(SerialOrder))),
    (402, 406, Want::Fault(228, Packet(BadRecord))),
    (406, 460, Want::Both),
    // The last moment is now after the packet's end, which is 10.
    (460, 468, Want::Fault(228, Packet(MomentOrder))),
    // The serial is still above the one before, and no record follows.
    (468, 476, Want::LastSerial),
    (476, 480, Want::Fault(228, Packet(BadRecord))),
    (480, 484, Want::Both),
];

/// Inverts the byte at this place.
fn invert(rt: &impl Abort, bytes: &mut [u8], at: usize) {
    *bytes.get_mut(at).expect(rt, "a longer file") ^= 0xFF;
}

/// Asserts what the audit says of the file with each byte damaged in turn, from this one on. Gives the byte after the last.
fn assert_damaged(
    rt: &impl Abort,
    alloc: Global,
    from: usize,
    rows: &[(usize, usize, Want)],
) -> usize {
    let mut file = file(rt, alloc);
    let mut next = from;
    for (start, end, want) in rows {
        assert_same(rt, *start, next);
        for offset in *start..*end {
            invert(rt, &mut file, offset);
            assert_wanted(rt, alloc, (offset, offset - *start), &file, *want);
            invert(rt, &mut file, offset);
        }
        next = *end;
    }
    next
}

#[test]
fn a_damaged_byte(rt: HostRuntime) {
    let second = assert_damaged(&rt, rt.alloc(), 0, &FIRST_PACKET);
    assert_same(&rt, second, 228);
    let end = assert_damaged(&rt, rt.alloc(), second, &SECOND_PACKET);
    assert_same(&rt, end, 484);
}
