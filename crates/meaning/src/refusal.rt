// The refusals of document 01, by name.
ghost use Rattle.std.specs.Prelude.{◌≡◌};
ghost use Rattle.meaning.specs.Refusals.{number_of};

use crate::CLASH_WIDTH;

// In the order of their numbers, 1 to 13; 10 gives the first clash.
#[derive(Clone, Copy)]
pub enum Refusal {
    ShortBuffer,
    NoExpression,
    BadSize,
    BadBody,
    Duplicate,
    PrefixClash,
    Dangling,
    BrokenDependency,
    CoreTooLarge,
    Clash([u16; CLASH_WIDTH]),
    MixedKinds,
    TooManyPairs,
    NoIri,
}

impl Refusal {
    // The number that document 01 gives it.
    pub fn number(self) -> u8
        ensures { result ≡ number_of self }
    {
        match self {
            Refusal::ShortBuffer => 1,
            Refusal::NoExpression => 2,
            Refusal::BadSize => 3,
            Refusal::BadBody => 4,
            Refusal::Duplicate => 5,
            Refusal::PrefixClash => 6,
            Refusal::Dangling => 7,
            Refusal::BrokenDependency => 8,
            Refusal::CoreTooLarge => 9,
            Refusal::Clash(_) => 10,
            Refusal::MixedKinds => 11,
            Refusal::TooManyPairs => 12,
            Refusal::NoIri => 13,
        }
    }
}
