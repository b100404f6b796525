//! What an entry is refused for.

/// A limit of a topic (DDS 2.2.3.19, RESOURCE_LIMITS), in the order in which they are tested.
#[derive(Clone, Copy, Debug, PartialEq, Eq, Drop)]
pub enum Limit {
    /// More instances would exist than `max_instances`.
    Instances,
    /// An instance would have more changes than `max_samples_per_instance`.
    PerInstance,
    /// There would be more changes than `max_samples`.
    Samples,
    /// The open coherent sets would have more members than the topic may hold: this project's own limit.
    Held,
}

/// Why an entry is not admitted.
#[derive(Clone, Copy, Debug, PartialEq, Eq, Drop)]
pub enum Refuse {
    /// It would pass the limit, and no one before it.
    Limit(Limit),
    /// There was not enough memory.
    OutOfMemory,
}
