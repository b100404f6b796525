//! The steps of the admitted history.

ghost use Rattle.std.specs.Prelude.{◌≡◌, IfOk};

use crate::{Guid, Number, OutOfMemory, Sample, Ticks};

/// One step of the admitted history. Its moment is the one at which it was admitted, in ticks of
/// 2^-32 s.
#[derive(Drop)]
pub enum Entry {
    /// A sample of a writer was taken in.
    Took {
        /// When.
        moment: Ticks,
        /// Whose it is.
        writer: Guid,
        /// Its number, the writer's next one.
        number: Number,
        /// The sample.
        sample: Sample,
    },
    /// The writer's numbers from `from` to `to` are passed over, for no sample stands there.
    Skip {
        /// When.
        moment: Ticks,
        /// Whose numbers.
        writer: Guid,
        /// The first, the writer's next one.
        from: Number,
        /// The last.
        to: Number,
    },
    /// The writer was lost: its registrations end, and its open coherent set is broken.
    Lost {
        /// When.
        moment: Ticks,
        /// Who.
        writer: Guid,
    },
}

impl Entry {
    /// An equal entry, which shares the payload's octets.
    pub fn copy(&self) -> Result<Entry, OutOfMemory>
        ensures { IfOk result (λ e. e ≡ self.now) }
    {
        match self {
            Entry::Took {
                moment,
                writer,
                number,
                sample,
            } => {
                let sample = sample.copy()?;
                Ok(Entry::Took {
                    moment: *moment,
                    writer: *writer,
                    number: *number,
                    sample,
                })
            }
            Entry::Skip {
                moment,
                writer,
                from,
                to,
            } => Ok(Entry::Skip {
                moment: *moment,
                writer: *writer,
                from: *from,
                to: *to,
            }),
            Entry::Lost { moment, writer } => Ok(Entry::Lost {
                moment: *moment,
                writer: *writer,
            }),
        }
    }
}
