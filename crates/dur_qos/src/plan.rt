//! What a plan declares.

ghost use Rattle.std.specs.Prelude.{◌≡◌, IfOk};

use dur_base::{Durability, Guid, List, Name, OutOfMemory, Shape};
use std::alloc::Global;

/// A topic and its settings. A limit of None is unlimited (DDS 2.2.3.5, DURABILITY_SERVICE).
#[derive(Drop)]
pub struct Topic {
    pub name: Name,
    /// TRANSIENT or PERSISTENT.
    pub kind: Durability,
    /// Where the key of its samples is found.
    pub shape: Shape,
    /// How many samples of an instance are kept: KEEP_LAST with this depth, or KEEP_ALL for None.
    pub depth: Option<u32>,
    /// How many samples are kept at most.
    pub max_samples: Option<u32>,
    /// How many instances are kept at most.
    pub max_instances: Option<u32>,
    /// How many samples of one instance are kept at most.
    pub max_per_instance: Option<u32>,
    /// How many samples of unfinished sets are held at most.
    pub max_held: Option<u32>,
    /// How many seconds an instance without a writer stays (service_cleanup_delay).
    pub delay: u32,
}

/// A declared writer.
#[derive(Clone, Copy, Drop)]
pub struct WriterLine {
    pub guid: Guid,
    /// The place of its topic in the plan, from 0.
    pub topic: u32,
    /// How many seconds it counts as alive after its last sign, or for ever for None.
    pub lease: Option<u32>,
}

/// A declared late reader.
#[derive(Clone, Copy, Drop)]
pub struct ReaderLine {
    pub guid: Guid,
    /// The place of its topic in the plan, from 0.
    pub topic: u32,
    /// The kind that it requests.
    pub kind: Durability,
}

/// What a service is to serve.
#[derive(Drop)]
pub struct Plan {
    /// The first eight octets of the service's GUID prefix.
    pub prefix: [u8; 8],
    pub topics: List<Topic>,
    pub writers: List<WriterLine>,
    pub readers: List<ReaderLine>,
}

impl Topic {
    /// An equal topic.
    pub fn copy(&self) -> Topic
        ensures { result ≡ self.now }
    {
        Topic {
            name: self.name.copy(),
            kind: self.kind,
            shape: self.shape,
            depth: self.depth,
            max_samples: self.max_samples,
            max_instances: self.max_instances,
            max_per_instance: self.max_per_instance,
            max_held: self.max_held,
            delay: self.delay,
        }
    }
}

fn topics_of(alloc: Global, topics: &[Topic]) -> Result<List<Topic>, OutOfMemory>
    ensures { IfOk result (λ l. l ≡ topics.now) }
{
    let mut copies = List::new(alloc);
    let mut rest = topics;
    while let [topic, later @ ..] = rest {
        copies.push(topic.copy())?;
        rest = later;
    }
    Ok(copies)
}

impl Plan {
    /// An equal plan.
    pub fn copy(&self) -> Result<Plan, OutOfMemory>
        ensures { IfOk result (λ p. p ≡ self.now) }
    {
        let alloc = self.topics.alloc();
        let topics = topics_of(alloc, self.topics.as_slice())?;
        let writers = Vec::from_slice(alloc, self.writers.as_slice())?;
        let readers = Vec::from_slice(alloc, self.readers.as_slice())?;
        Ok(Plan {
            prefix: self.prefix,
            topics,
            writers: List::of(writers),
            readers: List::of(readers),
        })
    }
}
