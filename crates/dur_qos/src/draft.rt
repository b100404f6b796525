//! A plan that grows line by line, with maps over its names and GUIDs.

ghost use Rattle.std.specs.Prelude.{◌≡◌, ◌+◌, ◌⊎◌, [], ℕ, false, OnOk, OnErr, IfOk, IfSome, IsSome, option_map, IfErr, Ok, Err};
ghost use Rattle.dur_qos.specs.Good.{GoodPlan};
ghost use Rattle.dur_qos.specs.Plan.{total};
ghost use Rattle.dur_qos.specs.Lines.{line_at};
ghost use Rattle.dur_qos.specs.Reading.{first, later, whole_line};
ghost use Rattle.dur_qos.specs.Index.{IsIndexed, IsReady};

use crate::line::{Line, line_of};
use crate::{Plan, PlanKind};
use dur_base::List;
use readers::take_reader;
use std::alloc::Global;
use std::collections::{HashMap, HashSet};
use topics::take_topic;
use writers::take_writer;

mod readers;
mod topics;
mod writers;

/// A plan that grows, with maps over it. After want of memory the maps may know more than the plan has.
#[derive(Drop)]
pub struct Draft {
    pub plan: Plan,
    /// The place of each topic.
    pub names: HashMap<Vec<u8>, u32>,
    pub writers: HashSet<[u8; 16]>,
    pub readers: HashSet<[u8; 16]>,
}

impl Draft {
    pub fn new(alloc: Global, prefix: [u8; 8]) -> Draft
        ensures plan { result.plan ≡ record { prefix = prefix; topics = []; writers = []; readers = [] } }
        ensures indexed { IsIndexed result }
    {
        Draft {
            plan: Plan {
                prefix,
                topics: List::new(alloc),
                writers: List::new(alloc),
                readers: List::new(alloc),
            },
            names: HashMap::new(alloc),
            writers: HashSet::new(alloc),
            readers: HashSet::new(alloc),
        }
    }

    // Adds what a line after the first says, and tells whether it is the last.
    fn add_line(&mut self, alloc: Global, line: Line) -> Result<bool, PlanKind>
        requires { IsIndexed self.old }
        ensures ok { IfOk result (λ ended. later self.old.plan (Ok line) ≡ Ok (record { plan = self.new.plan; ended = ended })) }
        ensures indexed { OnOk result (IsIndexed self.new) }
        ensures more { IfOk result (λ ended. ended ≡ false → total self.new.plan ≡ total self.old.plan + 1) }
        ensures same { OnErr result (self.new.plan ≡ self.old.plan) }
        ensures err { IfErr result (λ k. (k ≡ PlanKind.OutOfMemory) ⊎ (later self.old.plan (Ok line) ≡ Err k)) }
    {
        match line {
            Line::Prefix(_) => Err(PlanKind::Twice),
            Line::Topic(topic) => match take_topic(alloc, self, topic) {
                Ok(()) => Ok(false),
                Err(kind) => Err(kind),
            },
            Line::Writer { guid, topic, lease } => match take_writer(self, guid, topic, lease) {
                Ok(()) => Ok(false),
                Err(kind) => Err(kind),
            },
            Line::Reader { guid, topic, kind } => match take_reader(self, guid, topic, kind) {
                Ok(()) => Ok(false),
                Err(kind) => Err(kind),
            },
            Line::End => Ok(true),
        }
    }

    /// Adds a line after the first, and tells whether it is the last.
    pub fn take(&mut self, alloc: Global, text: &[u8]) -> Result<bool, PlanKind>
        requires { IsIndexed self.old }
        ensures good { GoodPlan self.old.plan → GoodPlan self.new.plan }
        ensures ok { IfOk result (λ ended. later self.old.plan (line_at text.now) ≡ Ok (record { plan = self.new.plan; ended = ended })) }
        ensures indexed { OnOk result (IsIndexed self.new) }
        ensures more { IfOk result (λ ended. ended ≡ false → total self.new.plan ≡ total self.old.plan + 1) }
        ensures same { OnErr result (self.new.plan ≡ self.old.plan) }
        ensures err { IfErr result (λ k. (k ≡ PlanKind.OutOfMemory) ⊎ (later self.old.plan (line_at text.now) ≡ Err k)) }
    {
        match line_of(text) {
            Ok(line) => self.add_line(alloc, line),
            Err(kind) => Err(kind),
        }
    }
}

/// What the first line begins.
pub fn begin(alloc: Global, text: &[u8]) -> Result<Draft, PlanKind>
    ensures ok { IfOk result (λ d. first (line_at text.now) ≡ Ok (record { plan = d.plan; ended = false })) }
    ensures indexed { IfOk result (λ d. IsIndexed d × (total d.plan ≡ 0)) }
    ensures good { IfOk result (λ d. GoodPlan d.plan) }
    ensures err { IfErr result (λ k. first (line_at text.now) ≡ Err k) }
{
    match line_of(text) {
        Ok(Line::Prefix(prefix)) => Ok(Draft::new(alloc, prefix)),
        Ok(_) => Err(PlanKind::Word),
        Err(_) => Err(PlanKind::Word),
    }
}

/// Takes a whole line, and tells whether it is the last.
pub fn take_line(alloc: Global, draft: &mut Option<Draft>, text: &[u8]) -> Result<bool, PlanKind>
    requires { IfSome draft.old IsIndexed }
    ensures ok { IfOk result (λ ended. IfSome draft.new (λ d. whole_line (option_map (λ e. e.plan) draft.old) text.now ≡ Ok (record { plan = d.plan; ended = ended }))) }
    ensures some { OnOk result (IsSome draft.new) }
    ensures ready { IfOk result (λ ended. ended ≡ false → (line : ℕ) → IsReady draft.old line → IsReady draft.new (line + 1)) }
    ensures err { IfErr result (λ k. (k ≡ PlanKind.OutOfMemory) ⊎ (whole_line (option_map (λ e. e.plan) draft.old) text.now ≡ Err k)) }
    ensures good { IfSome draft.old (λ d. GoodPlan d.plan) → IfSome draft.new (λ d. GoodPlan d.plan) }
    ensures same { OnErr result (option_map (λ e. e.plan) draft.new ≡ option_map (λ e. e.plan) draft.old) }
{
    match draft {
        None => match begin(alloc, text) {
            Ok(first) => {
                *draft = Some(first);
                Ok(false)
            }
            Err(kind) => Err(kind),
        },
        Some(draft) => draft.take(alloc, text),
    }
}
