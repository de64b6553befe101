// The arities of constructors.
ghost use Rattle.names.specs.PackGiven.{ForSettingOf, HoldsSetting};
ghost use Rattle.node_list.specs.Records.{Arities};

use meaning::{Arities, CONSTRUCTOR_WIDTH, CONSTRUCTORS_AT, CONSTRUCTORS_BODY, MAX_CONSTRUCTORS};
use records::setting::LoadedSetting;

// The arity of each constructor, by its number.
pub fn arities(setting: &LoadedSetting) -> Arities
    requires { HoldsSetting setting.now }
    ensures { ForSettingOf setting.now (λ P. Arities P result) }
{
    let n = setting.counts[CONSTRUCTORS_BODY];
    let mut arities = [0u8; MAX_CONSTRUCTORS];
    for i in 0..n {
        let at = CONSTRUCTORS_AT + i * CONSTRUCTOR_WIDTH;
        arities[i] = setting.numbers[at] as u8;
    }
    arities
}
