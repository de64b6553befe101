// Whether a relation or a constructor is there and has so many columns or arguments.
ghost use Rattle.std.specs.Prelude.{◌≡◌};
ghost use Rattle.meaning.specs.WellFormed.{constructor_arities, has_arity};
ghost use Rattle.names.specs.PackGiven.{ForSettingOf, HoldsSetting};

use meaning::{
    CONSTRUCTOR_WIDTH, CONSTRUCTORS_AT, CONSTRUCTORS_BODY, RELATIONS_AT, RELATIONS_BODY,
};
use records::setting::LoadedSetting;

pub fn has_columns(setting: &LoadedSetting, relation: u16, count: u16) -> bool
    requires { HoldsSetting setting.now }
    ensures { ForSettingOf setting.now (λ P. result ≡ has_arity P.setting.arities relation count) }
{
    let i = relation as usize;
    if setting.counts[RELATIONS_BODY] <= i {
        return false;
    }
    count == setting.numbers[RELATIONS_AT + i]
}

pub fn has_arguments(setting: &LoadedSetting, constructor: u16, count: u16) -> bool
    requires { HoldsSetting setting.now }
    ensures { ForSettingOf setting.now (λ P. result ≡ has_arity (constructor_arities P) constructor count) }
{
    let i = constructor as usize;
    if setting.counts[CONSTRUCTORS_BODY] <= i {
        return false;
    }
    count == setting.numbers[CONSTRUCTORS_AT + i * CONSTRUCTOR_WIDTH]
}
