//! Declared events: when they can be declared, and which offers are refused for them.

use super::Step::{Channel, Start, Stop, Threads};
use super::{assert_at, assert_same, assert_steps, new_session};
use std::alloc::Global;
use std::process::Abort;
use std::test::*;
use tr_events::Events;
use tr_session::{Session, StepFault};
use tr_session_book::SessionFault;
use tr_stream::{OfferFault, Offered};
use tr_terms::{Mode, SessionMode};
use tr_testing::moment;

const OTHER_LAYOUT: StepFault = StepFault::Offer(OfferFault::OtherLayout);

/// A local session with these events and a stream of 2 sub-buffers, which wasn't started.
fn declaring(rt: &impl Abort, alloc: Global, text: &str) -> Session {
    let events = Events::parse(alloc, text.as_bytes()).expect(rt, "events");
    let mut session = new_session(rt, alloc, SessionMode::Local);
    session.declare(&events).expect(rt, "declared");
    assert_steps(
        rt,
        &mut session,
        0,
        &[
            Channel("c", (4_096, 2, Mode::Discard), Ok(())),
            Threads("c", 0, 1),
        ],
    );
    session
}

#[test]
fn an_offer_fits_or_is_refused(rt: HostRuntime) {
    let text =
        "push 3 worker:u32 depth:u64\nname 5 text:str\nlog 7 text:text\nmark 9\nfar 70000 a:u8";
    let mut session = declaring(&rt, rt.alloc(), text);
    assert_steps(&rt, &mut session, 1, &[Start(1, Ok(()))]);
    // the serial of what is stored
    let table: [(u32, &[u8], Option<u64>); 17] = [
        (3, &[0x61; 12], Some(0)),
        (3, &[0x61; 11], None),
        (3, &[0x61; 13], None),
        (3, &[], None),
        (5, &[0], Some(1)),
        (5, &[0x61, 0], Some(2)),
        (5, &[], None),
        (5, &[0x61], None),
        (5, &[0, 0], None),
        (7, &[], Some(3)),
        (7, &[0x61; 5], Some(4)),
        (9, &[], Some(5)),
        (9, &[0], None),
        (70_000, &[0], Some(6)),
        (70_000, &[], None),
        // ids that nothing declares
        (4, &[0x61; 5], Some(7)),
        (70_001, &[], Some(8)),
    ];
    for (place, (id, payload, serial)) in table.iter().enumerate() {
        let answer = session.offer(0, moment(2), *id, *payload);
        let wanted = match *serial {
            Some(serial) => Ok(Offered::Stored { serial, seq: 0 }),
            None => Err(OTHER_LAYOUT),
        };
        assert_at(&rt, (1, place), answer, wanted);
    }
}

#[test]
fn the_layout_is_tried_first(rt: HostRuntime) {
    let mut session = declaring(&rt, rt.alloc(), "push 3 worker:u32");
    for (stream, size, wanted) in [
        (0, 3, OTHER_LAYOUT),
        (0, 4, StepFault::Offer(OfferFault::Inactive)),
        (1, 3, OTHER_LAYOUT),
        (1, 4, StepFault::Session(SessionFault::NoStream)),
    ] {
        let answer = session.offer(stream, moment(2), 3, &[0x61; 4][..size]);
        assert_same(&rt, answer, Err(wanted));
    }
}

#[test]
fn events_are_declared_before_the_first_start(rt: HostRuntime) {
    let alloc = rt.alloc();
    let mut session = declaring(&rt, alloc, "push 3 worker:u32");
    let other = Events::parse(alloc, "push 3 worker:u8".as_bytes()).expect(&rt, "events");
    // those that were declared before are gone
    session.declare(&other).expect(&rt, "declared");
    assert_same(&rt, session.book().fits(3, &[0; 4]), false);
    assert_same(&rt, session.book().fits(3, &[0; 1]), true);
    session
        .declare(&Events::none(alloc))
        .expect(&rt, "declared");
    assert_same(&rt, session.book().fits(3, &[0; 4]), true);
    session.declare(&other).expect(&rt, "declared");
    let refused = Err(SessionFault::AlreadyStarted);
    for step in [Start(1, Ok(())), Stop(Ok(()))] {
        assert_steps(&rt, &mut session, 1, &[step]);
        assert_same(&rt, session.declare(&Events::none(alloc)), refused);
        assert_same(&rt, session.book().fits(3, &[0; 4]), false);
    }
}
