//! Why an entry is not admitted.

ghost use Rattle.std.specs.Prelude.{◌≡◌};
ghost use Rattle.dur_store.specs.Refusals.{refusal_for, refusal_of};

use dur_view::{Limit, Refuse as Cause};

/// Why an entry is not admitted: the first limit of its topic that it would pass (DDS 2.2.3.19, RESOURCE_LIMITS), in
/// the order of the variants, or want of memory.
#[derive(Clone, Copy, Debug, PartialEq, Eq, Drop)]
pub enum Refuse {
    /// More instances would exist than `max_instances`.
    Instances,
    /// An instance would have more entitled changes than `max_samples_per_instance`.
    PerInstance,
    /// The topic would have more entitled changes than `max_samples`.
    Samples,
    /// The open coherent sets of the topic would have more members than it may hold: this project's own limit.
    Held,
    /// There was not enough memory.
    OutOfMemory,
}

impl Refuse {
    /// The refusal for a limit.
    pub fn for_limit(limit: Limit) -> Refuse
        ensures { result ≡ refusal_for limit }
    {
        match limit {
            Limit::Instances => Refuse::Instances,
            Limit::PerInstance => Refuse::PerInstance,
            Limit::Samples => Refuse::Samples,
            Limit::Held => Refuse::Held,
        }
    }
}

/// The refusal for a cause.
pub fn refusal_of(cause: Cause) -> Refuse
    ensures { result ≡ refusal_of cause }
{
    match cause {
        Cause::Limit(limit) => Refuse::for_limit(limit),
        Cause::OutOfMemory => Refuse::OutOfMemory,
    }
}
