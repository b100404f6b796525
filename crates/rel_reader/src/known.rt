//! What is known of one number of a writer.

ghost use Rattle.std.specs.Prelude.{◌≡◌, true, false, IfSome, IsSome};
ghost use Rattle.rel_reader.specs.declared.known.Known.TheVariants.{With};
ghost use Rattle.rel_reader.specs.Knowledge.{is_irrelevant, is_unknown, is_with, read_as};

use dur_base::Sample;

/// What is known of one number of a writer.
#[derive(Drop)]
pub enum Known {
    /// Nothing.
    Unknown,
    /// That no sample is to be taken: a GAP names it, a HEARTBEAT says that it is no longer there, or its DATA is
    /// unreadable (DDSI-RTPS 8.3.8.4, 8.3.8.6).
    Irrelevant,
    /// Its sample.
    With(Sample),
}

impl Known {
    /// What a DATA tells of its number. None is an unreadable sample.
    pub(crate) fn read(sample: Option<Sample>) -> Known
        ensures value { result ≡ read_as sample }
        ensures some { is_unknown result ≡ false }
    {
        match sample {
            Some(sample) => Known::With(sample),
            None => Known::Irrelevant,
        }
    }

    /// Whether nothing is known.
    pub(crate) fn is_unknown(&self) -> bool
        ensures { result ≡ is_unknown self.now }
    {
        match self {
            Known::Unknown => true,
            _ => false,
        }
    }

    /// Whether it is known without a sample.
    pub(crate) fn is_irrelevant(&self) -> bool
        ensures { result ≡ is_irrelevant self.now }
    {
        match self {
            Known::Irrelevant => true,
            _ => false,
        }
    }

    /// The sample, if there is one.
    pub(crate) fn into_sample(self) -> Option<Sample>
        ensures value { IfSome result (λ s. self ≡ With s) }
        ensures some { is_with self ≡ true → IsSome result }
    {
        match self {
            Known::With(sample) => Some(sample),
            _ => None,
        }
    }
}
