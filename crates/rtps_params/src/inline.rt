//! What a parameter list tells of a sample.

ghost use Rattle.std.specs.Prelude.{◌≡◌, []};
ghost use Rattle.rtps_params.specs.Meaning.{inline_of, with_parameter};

use crate::parameter::Parameter;
use dur_base::{Guid, Key, Number, SetMark, Ticks};

/// What a parameter list tells of a sample (DDSI-RTPS 9.6.4).
#[derive(Clone, Copy, Debug, PartialEq, Eq, Drop)]
pub struct Inline {
    /// The key of the sample's instance.
    pub hash: Option<Key>,
    /// 1 where the instance is disposed, and 2 more where it is unregistered; 0 where the list does not
    /// say.
    pub status: u8,
    /// How long the sample lives, in ticks of 2^-32 s. None is for ever.
    pub lifespan: Option<Ticks>,
    /// Its coherent set.
    pub set: SetMark,
    /// Who wrote it first, and as which number.
    pub original: Option<(Guid, Number)>,
    /// The first id of the list that is unknown and must be understood.
    pub strange: Option<u16>,
}

impl Inline {
    /// What a list without parameters tells.
    #[tactic(auto, unfolding(crate::specs::Meaning::inline_of))]
    pub fn nothing() -> Inline
        ensures { result ≡ inline_of [] }
    {
        Inline {
            hash: None,
            status: 0,
            lifespan: None,
            set: SetMark::NoSet,
            original: None,
            strange: None,
        }
    }

    /// The same after one parameter more.
    pub(crate) fn with(self, parameter: Parameter) -> Inline
        ensures { result ≡ with_parameter self parameter }
    {
        match parameter {
            Parameter::Hash(key) => Inline {
                hash: Some(key),
                ..self
            },
            Parameter::Status(status) => Inline { status, ..self },
            Parameter::Lifespan(lifespan) => Inline { lifespan, ..self },
            Parameter::Set(set) => Inline { set, ..self },
            Parameter::Original(guid, number) => Inline {
                original: Some((guid, number)),
                ..self
            },
            Parameter::Strange(id) => Inline {
                strange: self.strange.or(Some(id)),
                ..self
            },
            Parameter::Passed => self,
        }
    }
}
