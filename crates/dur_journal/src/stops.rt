//! A stop after each call of an opening, a commit and a compaction that changes or syncs a file, opened again.

ghost use Rattle.std.specs.Prelude.{IfSome};
ghost use Rattle.dur_journal.specs.Histories.{IsBase};

use crate::quiet::{Quiet, crashed};
use crate::tests::{PERSISTENT, batch, commit, found, open, plan_of, with_records};
use crate::{Journal, Opened};
use dur_base::Number;
use std::alloc::Global;
use std::test::*;

// What is found after the disk of a commit failed from that changing call on, and crashed.
fn stopped_commit(alloc: Global, calls: u64, pick: u64) -> Option<(u64, u32)> {
    let mut journal = with_records(alloc)?;
    journal.disk.disk.fail_from(calls);
    let disk = match commit(alloc, journal, 3)? {
        Ok(journal) => journal.close(),
        Err((_, disk)) => disk,
    };
    found(alloc, crashed(disk, pick)?)
}

// The same journal, opened again.
fn reopened(alloc: Global) -> Option<Opened<Quiet>>
    ensures { IfSome result (λ o. IsBase o.view) }
{
    let plan = plan_of(alloc, PERSISTENT)?;
    match Journal::open(alloc, with_records(alloc)?.close(), &plan) {
        Ok(opened) => Some(opened),
        Err(_) => None,
    }
}

// The same of a compaction, by the view of entries 1 and 2 as another opening found it.
fn stopped_compaction(alloc: Global, calls: u64, pick: u64) -> Option<(u64, u32)> {
    let Opened {
        mut journal,
        view,
        ..
    } = reopened(alloc)?;
    let batch = batch(alloc, journal.position(), Number::at(3))?;
    journal.disk.disk.fail_from(calls);
    let disk = match journal.compact(alloc, &batch, &view) {
        Ok((journal, _)) => journal.close(),
        Err((_, disk)) => disk,
    };
    found(alloc, crashed(disk, pick)?)
}

// The same of an opening.
fn stopped_opening(alloc: Global, calls: u64, pick: u64) -> Option<(u64, u32)> {
    let mut disk = with_records(alloc)?.close();
    disk.disk.fail_from(calls);
    let disk = match open(alloc, disk, PERSISTENT)? {
        Ok(opened) => opened.journal.close(),
        Err((_, disk)) => disk,
    };
    found(alloc, crashed(disk, pick)?)
}

const PICKS: [u64; 6] = [0, 1, 2, 77, 6008, 0x1234_5678_9abc_def0];

#[test]
fn a_stopped_commit_leaves_the_list_without_or_with_the_batch(rt: HostRuntime) {
    let alloc = rt.alloc();
    for calls in 0..5 {
        for pick in PICKS {
            let (handled, epoch) = stopped_commit(alloc, calls, pick).expect(&rt, "a journal");
            assert!(rt; epoch == 2 && (handled == 2 || (handled == 3 && calls >= 3)));
            assert!(rt; handled == 3 || calls < 4);
        }
    }
}

#[test]
fn a_stopped_compaction_leaves_one_of_two_generations(rt: HostRuntime) {
    let alloc = rt.alloc();
    for calls in 0..8 {
        for pick in PICKS {
            let (handled, epoch) = stopped_compaction(alloc, calls, pick).expect(&rt, "a journal");
            assert!(rt; handled == 2 && (epoch == 3 || (epoch == 4 && calls >= 6)));
            assert!(rt; epoch == 4 || calls < 7);
        }
    }
}

#[test]
fn a_stopped_opening_leaves_what_was_kept(rt: HostRuntime) {
    let alloc = rt.alloc();
    for calls in 0..10 {
        for pick in PICKS {
            let (handled, epoch) = stopped_opening(alloc, calls, pick).expect(&rt, "a journal");
            assert!(rt; handled == 2 && (epoch == 2 || (epoch == 3 && calls >= 8)));
            assert!(rt; epoch == 3 || calls < 9);
        }
    }
}
