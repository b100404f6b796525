//! Jobs on one counter, each with a pass and in a thread of its own.
ghost use Rattle.std.specs.Prelude.{◌≡◌, ℕ, ◌+◌, ◌-◌, ◌*◌, ◌<◌, ◌^◌, [], ◌∷◌, ◌++◌, List, length, map, replicate, slice_index_or, IfOk};
ghost use Rattle.std.specs.List.{All};
ghost use Rattle.dur_turn.specs.Passes.{IsPassOf, IsRootOf};
ghost use Rattle.turn_uses.specs.Jobs.{kept_of};
ghost use Rattle.turn_uses.specs.declared.jobs.Job.{Job};
ghost use Rattle.turn_uses.specs.declared.counter.Event.TheVariants.{Added};

use crate::counter::{Add, Counter};
use dur_base::OutOfMemory;
use dur_turn::{Pass, Root, Turn};
use std::alloc::Global;
use std::sync::Wait;
use std::thread;
use std::thread::Threads;

/// What one thread has to do: to add 1 so often.
#[derive(Drop)]
pub struct Job {
    pub pass: Pass<Counter>,
    pub times: usize,
}

/// Adds 1 as often as told.
pub fn add_ones<R: Wait>(rt: &R, turn: &Turn<Counter>, pass: &mut Pass<Counter>, times: usize)
    requires { IsPassOf turn.now pass.old }
    ensures own { IsPassOf turn.now pass.new }
    ensures mine { (pass.new.mine ≡ pass.old.mine ++ replicate times (Added 1)) × (pass.new.number ≡ pass.old.number) }
{
    for _ in 0..times {
        turn.with(rt, pass, Add(1));
    }
}

/// So many jobs, each with a new pass.
pub fn split_all(
    alloc: Global,
    turn: &Turn<Counter>,
    root: &mut Root<Counter>,
    count: usize,
    times: usize,
) -> Result<Vec<Job>, OutOfMemory>
    requires own { IsRootOf turn.now root.old }
    requires room { root.old.out + count < 2 ^ 32 }
    ensures own { IsRootOf turn.now root.new }
    ensures each { IfOk result (λ v. (length v.items ≡ count) × All (λ j. IsPassOf turn.now j.pass × (j.pass.mine ≡ []) × (j.times ≡ times)) v.items) }
    ensures root { IfOk result (λ v. (root.new.out ≡ root.old.out + count) × (root.new.joined ≡ root.old.joined)) }
{
    let mut jobs = Vec::new(alloc);
    for _ in 0..count {
        let pass = turn.split(root);
        if jobs.push(Job { pass, times }).is_err() {
            return Err(OutOfMemory);
        }
    }
    Ok(jobs)
}

/// Runs all jobs, in as many threads as there are jobs.
pub fn run_all<R: Threads + Wait + Sync>(rt: &R, turn: &Turn<Counter>, jobs: &mut [Job])
    requires some { 0 < length jobs.old }
    requires own { All (λ j. IsPassOf turn.now j.pass) jobs.old }
    ensures own { (length jobs.new ≡ length jobs.old) × All (λ j. IsPassOf turn.now j.pass) jobs.new }
    ensures each { (i : ℕ) (d : Job) → i < length jobs.old → (slice_index_or jobs.new i d).pass.mine ≡ (slice_index_or jobs.old i d).pass.mine ++ replicate (slice_index_or jobs.old i d).times (Added 1) }
{
    let threads = jobs.len();
    thread::for_each_mut(
        rt,
        jobs,
        threads,
        &|_, job| { add_ones(rt, turn, &mut job.pass, job.times) },
    );
}

/// Joins the passes of all jobs, in order.
pub fn join_all(turn: &Turn<Counter>, root: &mut Root<Counter>, jobs: Vec<Job>)
    requires own { IsRootOf turn.now root.old }
    requires each { All (λ j. IsPassOf turn.now j.pass) jobs.items }
    ensures own { IsRootOf turn.now root.new }
    ensures joined { root.new.joined ≡ root.old.joined ++ map (λ j. kept_of j.pass) jobs.items }
    ensures out { root.new.out ≡ root.old.out - length jobs.items }
{
    for job in jobs {
        let Job { pass, times: _ } = job;
        turn.join(root, pass);
    }
}

/// So many threads add 1 so often each. The count at the end is exact. The error is want of memory.
pub fn count_in_threads<R: Threads + Wait + Sync>(
    rt: &R,
    alloc: Global,
    threads: usize,
    times: usize,
) -> Result<u64, OutOfMemory>
    requires some { (0 < threads) × (threads < 2 ^ 32) }
    requires fits { threads * times < 2 ^ 64 }
    ensures { IfOk result (λ count. count ≡ threads * times) }
{
    let (turn, mut root) = Turn::open(alloc, Counter { count: 0 })?;
    let mut jobs = split_all(alloc, &turn, &mut root, threads, times)?;
    run_all(rt, &turn, jobs.as_mut_slice());
    join_all(&turn, &mut root, jobs);
    Ok(turn.close(root).count)
}
