//! Two passes in two threads, of which one reads.
ghost use Rattle.std.specs.Prelude.{◌≡◌, ◌+◌, ◌<◌, ◌≤◌, ◌^◌, [], ◌∷◌, ◌++◌, replicate, IfOk};
ghost use Rattle.dur_turn.specs.Passes.{IsPassOf, IsLonePass};
ghost use Rattle.turn_uses.specs.declared.counter.Event.TheVariants.{Added, Read};

use crate::counter::{Add, Counter, ReadCount};
use crate::jobs::add_ones;
use dur_base::OutOfMemory;
use dur_turn::{Pass, Turn};
use std::alloc::Global;
use std::sync::Wait;
use std::thread;
use std::thread::Threads;

fn add_and_read<R: Wait>(
    rt: &R,
    turn: &Turn<Counter>,
    mut pass: Pass<Counter>,
    by: u64,
) -> (Pass<Counter>, u64)
    requires own { IsPassOf turn.now pass }
    requires lone { IsLonePass pass }
    ensures own { IsPassOf turn.now result.0 }
    ensures mine { (result.0.mine ≡ (pass.mine ++ Added by ∷ []) ++ Read result.1 ∷ []) × (result.0.number ≡ pass.number) }
{
    turn.with(rt, &mut pass, Add(by));
    let count = turn.with(rt, &mut pass, ReadCount);
    (pass, count)
}

fn add_all<R: Wait>(
    rt: &R,
    turn: &Turn<Counter>,
    mut pass: Pass<Counter>,
    times: usize,
) -> Pass<Counter>
    requires own { IsPassOf turn.now pass }
    ensures own { IsPassOf turn.now result }
    ensures mine { (result.mine ≡ pass.mine ++ replicate times (Added 1)) × (result.number ≡ pass.number) }
{
    add_ones(rt, turn, &mut pass, times);
    pass
}

/// One pass adds a number and then reads, while another adds 1 so often. What is read has all of the first, and at most
/// all of the second. The error is want of memory.
pub fn read_beside<R: Threads + Wait + Sync>(
    rt: &R,
    alloc: Global,
    by: u64,
    times: usize,
) -> Result<u64, OutOfMemory>
    requires { by + times < 2 ^ 64 }
    ensures { IfOk result (λ count. (by ≤ count) × (count ≤ by + times)) }
{
    let (turn, mut root) = Turn::open(alloc, Counter { count: 0 })?;
    let a = turn.split(&mut root);
    let b = turn.split(&mut root);
    let shared = &turn;
    let (read, b) = thread::join(
        rt,
        move || -> (Pass<Counter>, u64)
            requires { IsPassOf shared.now a × IsLonePass a }
            ensures { IsPassOf shared.entry.now result.0 × (result.0.mine ≡ (a.mine ++ Added by ∷ []) ++ Read result.1 ∷ []) × (result.0.number ≡ a.number) }
        { add_and_read(rt, shared, a, by) },
        move || -> Pass<Counter>
            requires { IsPassOf shared.now b }
            ensures { IsPassOf shared.entry.now result × (result.mine ≡ b.mine ++ replicate times (Added 1)) × (result.number ≡ b.number) }
        { add_all(rt, shared, b, times) },
    );
    let (a, count) = read;
    turn.join(&mut root, a);
    turn.join(&mut root, b);
    turn.close(root);
    Ok(count)
}
