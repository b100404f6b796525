//! Announcements whose octets were laid out by hand from the standard's tables.

use crate::{Announcement, Directory, LearnFault, read_announcement};
use bytes::Bytes;
use dur_base::{Durability, EntityId, Fact, Form, Guid, Key, Number, Payload, Raw, SetMark, Ticks};
use dur_qos::{Plan, PlanReader};
use std::alloc::Global;

/// A plan without writers and readers.
const PLAN: &[u8] =
    b"prefix 0102030405060708\ntopic T transient hash 1 - - - - 0\ntopic U/x persistent none all - - - - 0\nend\n";

/// SPDP's writer of the participant.
const PARTICIPANTS: Guid = Guid([
    0xa1, 0xa1, 0xa1, 0xa1, 0xa1, 0xa1, 0xa1, 0xa1, 0xa1, 0xa1, 0xa1, 0xa1, 0, 1, 0, 0xc2,
]);

/// SEDP's writer of publications.
const PUBLICATIONS: Guid = Guid([
    0xa1, 0xa1, 0xa1, 0xa1, 0xa1, 0xa1, 0xa1, 0xa1, 0xa1, 0xa1, 0xa1, 0xa1, 0, 0, 3, 0xc2,
]);

/// SEDP's writer of subscriptions.
const SUBSCRIPTIONS: Guid = Guid([
    0xa1, 0xa1, 0xa1, 0xa1, 0xa1, 0xa1, 0xa1, 0xa1, 0xa1, 0xa1, 0xa1, 0xa1, 0, 0, 4, 0xc2,
]);

/// The participant, with a lease of 10 seconds.
const PARTICIPANT: &[u8] =
    b"\0\x03\0\0\x50\0\x10\0\xa1\xa1\xa1\xa1\xa1\xa1\xa1\xa1\xa1\xa1\xa1\xa1\0\0\x01\xc1\x02\0\x08\0\x0a\0\0\0\0\0\0\0\x01\0\0\0";

/// A writer of `T` that offers TRANSIENT.
const WRITER: &[u8] =
    b"\0\x03\0\0\x5a\0\x10\0\xa1\xa1\xa1\xa1\xa1\xa1\xa1\xa1\xa1\xa1\xa1\xa1\0\0\x01\x02\x05\0\x08\0\x02\0\0\0T\0\0\0\x1d\0\x04\0\x02\0\0\0\x01\0\0\0";

/// The same, that offers TRANSIENT_LOCAL.
const LOCAL_WRITER: &[u8] =
    b"\0\x03\0\0\x5a\0\x10\0\xa1\xa1\xa1\xa1\xa1\xa1\xa1\xa1\xa1\xa1\xa1\xa1\0\0\x01\x02\x05\0\x08\0\x02\0\0\0T\0\0\0\x1d\0\x04\0\x01\0\0\0\x01\0\0\0";

/// A reader of `U/x`, big-endian, without a durability, with a parameter that is passed over.
const READER: &[u8] =
    b"\0\x02\0\0\0\x5a\0\x10\xa1\xa1\xa1\xa1\xa1\xa1\xa1\xa1\xa1\xa1\xa1\xa1\0\0\x01\x07\x40\x21\0\x04abcd\0\x05\0\x08\0\0\0\x04U/x\0\0\x01\0\0";

/// The reader's GUID, as a key hash.
const READER_KEY: Key = Key([
    0xa1, 0xa1, 0xa1, 0xa1, 0xa1, 0xa1, 0xa1, 0xa1, 0xa1, 0xa1, 0xa1, 0xa1, 0, 0, 1, 7,
]);

fn plan(alloc: Global) -> Option<Plan> {
    let mut reader = PlanReader::new(alloc);
    match reader.push(PLAN) {
        Ok(_) => reader.finish().ok(),
        Err(_) => None,
    }
}

fn raw(alloc: Global, status: u8, hash: Option<Key>, payload: &[u8]) -> Option<Raw> {
    let payload = Payload::of(Bytes::copy_from_slice(alloc, payload).ok()?);
    Some(Raw {
        hash,
        status,
        stamp: None,
        lifespan: None,
        set: SetMark::NoSet,
        original: None,
        form: Form::Data,
        payload,
    })
}

fn fact(alloc: Global, writer: Guid, payload: &[u8]) -> Option<Fact> {
    Some(Fact::Data {
        writer,
        reader: EntityId([0; 4]),
        number: Number::one(),
        raw: raw(alloc, 0, None, payload)?,
    })
}

/// The directory that heard the participant at 5 and another payload at 6.
fn heard(alloc: Global, plan: &Plan, writer: Guid, payload: &[u8]) -> Option<Directory> {
    let mut directory = Directory::new(alloc);
    let first = fact(alloc, PARTICIPANTS, PARTICIPANT)?;
    directory.hear(plan, Ticks(5), &first).ok()?;
    let second = fact(alloc, writer, payload)?;
    directory.hear(plan, Ticks(6), &second).ok()?;
    Some(directory)
}

#[test]
fn a_writer_is_learnt_up_to_the_end_of_its_lease(rt: HostRuntime) {
    let alloc = rt.alloc();
    let plan = plan(alloc).expect(&rt, "plan");
    let directory = heard(alloc, &plan, PUBLICATIONS, WRITER).expect(&rt, "memory");
    match directory.learn(alloc, &plan, Ticks(42_949_672_965)) {
        Ok(learnt) => match learnt.writers.as_slice() {
            [line] => {
                assert!(rt;
                    line.guid.entity() == EntityId([0, 0, 1, 2])
                        && line.guid.prefix() == PUBLICATIONS.prefix()
                );
                assert!(rt; line.topic == 0 && line.lease == Some(10) && learnt.readers.len() == 0);
            }
            _ => assert!(rt; false),
        },
        Err(_) => assert!(rt; false),
    }
    match directory.learn(alloc, &plan, Ticks(42_949_672_966)) {
        Ok(learnt) => assert!(rt; learnt.writers.len() == 0 && learnt.topics.len() == 2),
        Err(_) => assert!(rt; false),
    }
    let directory = heard(alloc, &plan, PUBLICATIONS, LOCAL_WRITER).expect(&rt, "memory");
    match directory.learn(alloc, &plan, Ticks(6)) {
        Ok(learnt) => assert!(rt; learnt.writers.len() == 0),
        Err(_) => assert!(rt; false),
    }
}

#[test]
fn a_reader_is_learnt_until_it_leaves(rt: HostRuntime) {
    let alloc = rt.alloc();
    let plan = plan(alloc).expect(&rt, "plan");
    let mut directory = heard(alloc, &plan, SUBSCRIPTIONS, READER).expect(&rt, "memory");
    match directory.learn(alloc, &plan, Ticks(6)) {
        Ok(learnt) => match learnt.readers.as_slice() {
            [line] => assert!(rt;
                line.guid.0 == READER_KEY.0 && line.topic == 1 && line.kind == Durability::Volatile
            ),
            _ => assert!(rt; false),
        },
        Err(_) => assert!(rt; false),
    }
    let farewell = Fact::Data {
        writer: SUBSCRIPTIONS,
        reader: EntityId([0; 4]),
        number: Number::one().next(),
        raw: raw(alloc, 3, Some(READER_KEY), b"").expect(&rt, "memory"),
    };
    assert!(rt; directory.hear(&plan, Ticks(7), &farewell).is_ok());
    match directory.learn(alloc, &plan, Ticks(7)) {
        Ok(learnt) => assert!(rt; learnt.readers.len() == 0),
        Err(_) => assert!(rt; false),
    }
}

#[test]
fn announcements_are_read(rt: HostRuntime) {
    let alloc = rt.alloc();
    let plan = plan(alloc).expect(&rt, "plan");
    let told = raw(alloc, 0, None, PARTICIPANT).expect(&rt, "memory");
    match read_announcement(&plan, PARTICIPANTS, &told) {
        Some(announcement) => {
            assert!(rt; announcement.guid().prefix() == PARTICIPANTS.prefix());
            assert!(rt;
                matches!(
                    announcement,
                    Announcement::Participant {
                        lease: Some(Ticks(42_949_672_960)),
                        ..
                    }
                )
            );
        }
        None => assert!(rt; false),
    }
    // Of another writer, by another builtin writer, and without its last octets it is none.
    assert!(rt; read_announcement(&plan, Guid([0xa1; 16]), &told).is_none());
    assert!(rt; read_announcement(&plan, PUBLICATIONS, &told).is_none());
    let cut = raw(alloc, 0, None, &PARTICIPANT[..36]).expect(&rt, "memory");
    assert!(rt; read_announcement(&plan, PARTICIPANTS, &cut).is_none());
}

#[test]
fn faults_are_printed(rt: HostRuntime) {
    let text = format!(in rt.alloc(); "{}", LearnFault::TooMany).expect(&rt, "memory");
    assert!(rt; text.as_str() == "too many");
}
