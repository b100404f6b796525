//! The kinds that a topic's settings choose from.

/// How long samples outlive their writer (DDS 2.2.3.4), in rising order.
#[derive(Clone, Copy, Debug, PartialEq, Eq, PartialOrd, Ord, Drop)]
pub enum Durability {
    /// Samples are for the readers that are there.
    Volatile,
    /// Samples are kept by their writer as long as it lives.
    TransientLocal,
    /// Samples outlive their writer, and need not outlive the service's process.
    Transient,
    /// Samples are kept in permanent storage.
    Persistent,
}

/// Where the key of a topic's samples is found.
#[derive(Clone, Copy, Debug, PartialEq, Eq, Drop)]
pub enum Shape {
    /// The topic has no key: it has one instance, of the key zero.
    None,
    /// In the inline key hash alone.
    Hash,
    /// In the inline key hash, or else in the first four octets of the CDR payload.
    U32,
    /// In the inline key hash, or else in the text at the front of the CDR payload.
    Text,
}
