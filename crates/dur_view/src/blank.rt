//! The view of a plan of which nothing was handled.

ghost use Rattle.std.specs.Prelude.{◌≡◌, IfOk, map};
ghost use Rattle.dur_qos.specs.Good.{GoodPlan};
ghost use Rattle.dur_view.specs.Full.{blank, first_line};

use crate::copies::copy_topics;
use crate::{KeptWriter, View};
use dur_base::{List, Number, OutOfMemory, Ticks};
use dur_qos::{Plan, WriterLine};
use std::alloc::Global;

fn first_lines(alloc: Global, writers: &[WriterLine]) -> Result<List<KeptWriter>, OutOfMemory>
    ensures { IfOk result (λ l. l ≡ map first_line writers.now) }
{
    let mut lines = List::new(alloc);
    for writer in writers {
        lines.push(KeptWriter {
            guid: writer.guid,
            topic: writer.topic,
            next: Number::one(),
            held: List::new(alloc),
        })?;
    }
    Ok(lines)
}

impl View {
    /// The topics and the writers of the plan, with nothing handled at moment 0.
    pub fn blank(plan: &Plan) -> Result<View, OutOfMemory>
        requires { GoodPlan plan.now }
        ensures { IfOk result (λ v. v ≡ blank plan.now) }
    {
        let alloc = plan.topics.alloc();
        let topics = copy_topics(alloc, plan.topics.as_slice())?;
        let writers = first_lines(alloc, plan.writers.as_slice())?;
        Ok(View {
            last: Ticks(0),
            topics,
            writers,
            instances: List::new(alloc),
            kept: List::new(alloc),
        })
    }
}
