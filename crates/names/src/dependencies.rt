// Refusal 7 of dependencies: the relation is there and has the columns.
ghost use Rattle.std.specs.Prelude.{◌≡◌, ◌+◌, ◌≤◌, ◌^◌, ltb, length};
ghost use Rattle.meaning.specs.Limits.{dependency_width, max_columns};
ghost use Rattle.meaning.specs.Tests.{every};
ghost use Rattle.meaning.specs.WellFormed.{good_dependency};
ghost use Rattle.names.specs.PackGiven.{ForDependency, ForSettingOf, HoldsSetting};

use meaning::{DEPENDENCIES_AT, DEPENDENCIES_BODY, DEPENDENCY_WIDTH, RELATIONS_AT, RELATIONS_BODY};
use records::setting::LoadedSetting;

// Whether a set of columns lies in the first k.
fn in_columns(mask: u16, k: u16) -> bool
    requires { k ≤ max_columns }
    ensures { result ≡ ltb mask (2 ^ k) }
{
    mask < 1u16 << k
}

// Whether the dependency at a place is good.
fn good_dependency(setting: &LoadedSetting, at: usize) -> bool
    requires { HoldsSetting setting.now × (at + dependency_width ≤ length setting.now.numbers.now) }
    ensures { ForSettingOf setting.now (λ P. ForDependency setting.now.numbers.now at (λ x. result ≡ good_dependency P x)) }
{
    let relation = setting.numbers[at] as usize;
    if setting.counts[RELATIONS_BODY] <= relation {
        return false;
    }
    let arity = setting.numbers[RELATIONS_AT + relation];
    if !in_columns(setting.numbers[at + 1], arity) {
        return false;
    }
    in_columns(setting.numbers[at + 2], arity)
}

pub fn good_dependencies(setting: &LoadedSetting) -> bool
    requires { HoldsSetting setting.now }
    ensures { ForSettingOf setting.now (λ P. result ≡ every (good_dependency P) P.setting.dependencies) }
{
    (0..setting.counts[DEPENDENCIES_BODY]).all(|i| good_dependency(
        setting,
        DEPENDENCIES_AT + i * DEPENDENCY_WIDTH,
    ))
}
