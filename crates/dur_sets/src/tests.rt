//! A set that is closed, one that is broken, and a stray.

ghost use Rattle.std.specs.Prelude.{IfOk};
ghost use Rattle.dur_qos.specs.Good.{GoodPlan};

use crate::{Before, Effect, Now, Sets};
use dur_base::{Number, SetMark};
use dur_qos::{Plan, PlanFault, PlanReader};
use dur_view::{View, blank_views_are_sound};
use std::alloc::Global;
use std::test::*;

const PLAN: &[u8] =
    b"prefix 0102030405060708\ntopic T transient hash 1 - - - - 0\nwriter a1a1a1a1a1a1a1a1a1a1a1a100000102 T -\nend\n";

fn read(alloc: Global, text: &[u8]) -> Result<Plan, PlanFault>
    ensures { IfOk result (λ p. GoodPlan p) }
{
    let mut reader = PlanReader::new(alloc);
    match reader.push(text) {
        Ok(_) => reader.finish(),
        Err(fault) => Err(fault),
    }
}

// The sets of one writer of which nothing was handled.
fn sets(alloc: Global) -> Option<Sets> {
    let Ok(plan) = read(alloc, PLAN) else {
        return None;
    };
    blank_views_are_sound();
    match View::blank(&plan) {
        Ok(view) => Sets::new(alloc, &view).ok(),
        Err(_) => None,
    }
}

const HELD: Effect = Effect {
    before: Before::Nothing,
    now: Now::Hold,
};

#[test]
fn a_set_takes_effect_with_its_closer(rt: HostRuntime) {
    let one = Number::one();
    let mut sets = sets(rt.alloc()).expect(&rt, "sets");
    assert!(rt; sets.step(0, one, SetMark::Of(one)) == HELD);
    assert!(rt; sets.step(0, Number::at(2), SetMark::Of(one)) == HELD);
    let whole = Effect {
        before: Before::Close(2),
        now: Now::Now,
    };
    assert!(rt; sets.effect(0, Number::at(3), SetMark::End) == whole);
    assert!(rt; sets.step(0, Number::at(3), SetMark::End) == whole);
    assert!(rt; sets.skip(0) == 0);
}

#[test]
fn a_broken_set_leaves_strays(rt: HostRuntime) {
    let one = Number::one();
    let mut sets = sets(rt.alloc()).expect(&rt, "sets");
    assert!(rt; sets.step(0, one, SetMark::Of(one)) == HELD);
    assert!(rt; sets.lost(0) == 1);
    let stray = Effect {
        before: Before::Nothing,
        now: Now::Drop,
    };
    assert!(rt; sets.step(0, Number::at(2), SetMark::Of(one)) == stray);
}
