// Refusal 7 on a pack's numbers: a number names no record or column, a count differs from the arity, or a head variable is in no
// atom.
#![tactic(auto)]

ghost use Rattle.std.specs.Prelude.{◌≡◌};
ghost use Rattle.meaning.specs.WellFormed.{dangling};
ghost use Rattle.names.specs.PackGiven.{ForPackOf, HoldsPack};

pub mod arity;
pub mod dependencies;
pub mod rows;
pub mod rules;
pub mod shapes;

use crate::dependencies::good_dependencies;
use crate::rows::good_rows;
use crate::rules::good_rules;
use crate::shapes::good_shapes;
use records::setting::LoadedSetting;

// Whether refusal 7 is true of the pack that the numbers hold.
pub fn is_dangling(setting: &LoadedSetting, rows: &[u16]) -> bool
    requires { HoldsPack setting.now rows.now }
    ensures { ForPackOf setting.now rows.now (λ P. result ≡ dangling P) }
{
    !(good_dependencies(setting)
        && good_shapes(setting)
        && good_rules(setting)
        && good_rows(setting, rows))
}
