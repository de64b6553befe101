// Refusal 7 of shapes: type, predicate and target are there.
ghost use Rattle.std.specs.Prelude.{◌≡◌, ◌+◌, ◌≤◌, length};
ghost use Rattle.meaning.specs.Limits.{shape_width};
ghost use Rattle.meaning.specs.Tests.{every};
ghost use Rattle.meaning.specs.WellFormed.{good_shape};
ghost use Rattle.names.specs.PackGiven.{ForSettingOf, ForShape, HoldsSetting};

use meaning::{LITERAL_TARGET, PREDICATES_BODY, SHAPE_WIDTH, SHAPES_AT, SHAPES_BODY, TYPES_BODY};
use records::setting::LoadedSetting;

const LITERAL: u16 = LITERAL_TARGET as u16;

// Whether the shape at a place is good.
fn good_shape(setting: &LoadedSetting, at: usize) -> bool
    requires { at + shape_width ≤ length setting.now.numbers.now }
    ensures { ForSettingOf setting.now (λ P. ForShape setting.now.numbers.now at (λ x. result ≡ good_shape P x)) }
{
    let types = setting.counts[TYPES_BODY];
    let target = setting.numbers[at + 2];
    if types <= setting.numbers[at] as usize {
        return false;
    }
    if setting.counts[PREDICATES_BODY] <= setting.numbers[at + 1] as usize {
        return false;
    }
    if target == LITERAL {
        return true;
    }
    (target as usize) < types
}

pub fn good_shapes(setting: &LoadedSetting) -> bool
    requires { HoldsSetting setting.now }
    ensures { ForSettingOf setting.now (λ P. result ≡ every (good_shape P) P.setting.shapes) }
{
    (0..setting.counts[SHAPES_BODY]).all(|i| good_shape(setting, SHAPES_AT + i * SHAPE_WIDTH))
}
