//! The kinds of value objects of a generated site.

ghost use Rattle.std.specs.Prelude.{◌≡◌, string_bytes};
ghost use Rattle.work_load.specs.Kinds.{kind_at, kind_name};

/// The kind of a value object.
#[derive(Clone, Copy, Debug, PartialEq, Eq)]
pub enum Kind {
    /// A whole number with a sign.
    Integer,
    /// A whole number without a sign.
    PositiveInteger,
    /// Active or inactive.
    Binary,
    /// One of a number of states.
    MultiState,
    /// A string of bits.
    BitString,
    /// A text.
    CharacterString,
}

impl Kind {
    /// The kind of the object with an instance: the six kinds in turn.
    #[tactic(auto, unfolding(crate::specs::Kinds::kind_at))]
    pub fn at(instance: u64) -> Kind
        ensures kind { result ≡ kind_at instance }
    {
        match instance % 6 {
            0 => Kind::Integer,
            1 => Kind::PositiveInteger,
            2 => Kind::Binary,
            3 => Kind::MultiState,
            4 => Kind::BitString,
            _ => Kind::CharacterString,
        }
    }

    /// The name of the kind, as a site's text and a script have it.
    pub fn name(self) -> &'static str
        ensures name { result.now ≡ kind_name self }
    {
        match self {
            Kind::Integer => "integer-value",
            Kind::PositiveInteger => "positive-integer-value",
            Kind::Binary => "binary-value",
            Kind::MultiState => "multi-state-value",
            Kind::BitString => "bitstring-value",
            Kind::CharacterString => "characterstring-value",
        }
    }
}
