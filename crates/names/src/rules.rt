// Refusal 7 of rules: relations and constructors are there with as many columns and arguments, types and predicates are there,
// and every head variable is in some atom.
ghost use Rattle.std.specs.Prelude.{◌≡◌, ◌+◌, ◌≤◌, length};
ghost use Rattle.std.proofs.Math.Seq.{slice};
ghost use Rattle.meaning.specs.Limits.{head_width};
ghost use Rattle.meaning.specs.Tests.{any, elem, every};
ghost use Rattle.meaning.specs.WellFormed.{good_atom, good_rule, in_atoms};
ghost use Rattle.names.specs.PackGiven.{ForSettingOf, HoldsSetting};
ghost use Rattle.names.specs.Rule.{ForAtoms, ForHead, ForRule, IsAtoms, IsRule, head_named};

use crate::arity::{has_arguments, has_columns};
use meaning::{
    ATOM_WIDTH, ATOMS_LENGTH, MAX_HEAD_VARIABLES, PREDICATES_BODY, RULE_WIDTH, RULES_AT,
    RULES_BODY, TYPES_BODY,
};
use records::setting::LoadedSetting;

// Where a rule's parts are: how many variables its head has, these, its head.
const VARIABLE_COUNT: usize = 1 + ATOMS_LENGTH;

const VARIABLES: usize = VARIABLE_COUNT + 1;

const HEAD: usize = VARIABLES + MAX_HEAD_VARIABLES;

// Whether each of n atoms' relation is there with as many columns.
fn good_atoms(setting: &LoadedSetting, first: usize, n: usize) -> bool
    requires { HoldsSetting setting.now × IsAtoms setting.now.numbers.now first n }
    ensures { ForSettingOf setting.now (λ P. ForAtoms setting.now.numbers.now first n (λ as'. result ≡ every (good_atom P) as')) }
{
    (0..n).all(|i| {
        let at = first + i * ATOM_WIDTH;
        has_columns(setting, setting.numbers[at], setting.numbers[at + 1])
    })
}

// Whether a variable is in some atom.
fn is_bound(numbers: &[u16], first: usize, n: usize, v: u16) -> bool
    requires { IsAtoms numbers.now first n }
    ensures { ForAtoms numbers.now first n (λ as'. result ≡ any (λ a. elem v a.variables) as') }
{
    (0..n).any(|i| {
        let at = first + i * ATOM_WIDTH;
        let start = at + 2;
        let end = start + numbers[at + 1] as usize;
        numbers[start..end].contains(&v)
    })
}

// Whether each variable from a place up to another is in some atom.
fn all_bound(numbers: &[u16], first: usize, n: usize, from: usize, end: usize) -> bool
    requires { IsAtoms numbers.now first n × (from ≤ end) × (end ≤ length numbers.now) }
    ensures { ForAtoms numbers.now first n (λ as'. result ≡ in_atoms as' (slice from end numbers.now)) }
{
    numbers[from..end]
        .iter()
        .all(|v| is_bound(numbers, first, n, *v))
}

// Whether what a head names is there.
fn head_named(setting: &LoadedSetting, at: usize) -> bool
    requires { HoldsSetting setting.now × (at + head_width ≤ length setting.now.numbers.now) }
    ensures { ForSettingOf setting.now (λ P. ForHead setting.now.numbers.now at (λ h. result ≡ head_named P h)) }
{
    let kind = setting.numbers[at];
    let label = setting.numbers[at + 3] as usize;
    if !has_arguments(setting, setting.numbers[at + 1], setting.numbers[at + 2]) {
        return false;
    }
    if kind == 0 {
        return label < setting.counts[TYPES_BODY];
    }
    if setting.counts[PREDICATES_BODY] <= label {
        return false;
    }
    if kind != 1 {
        return true;
    }
    has_arguments(setting, setting.numbers[at + 4], setting.numbers[at + 5])
}

// Whether the rule at a place is good.
fn good_rule(setting: &LoadedSetting, at: usize) -> bool
    requires { HoldsSetting setting.now × IsRule setting.now.numbers.now at }
    ensures { ForSettingOf setting.now (λ P. ForRule setting.now.numbers.now at (λ r. result ≡ good_rule P r)) }
{
    let n = setting.numbers[at] as usize;
    let first = at + 1;
    if !good_atoms(setting, first, n) {
        return false;
    }
    if !head_named(setting, at + HEAD) {
        return false;
    }
    let from = at + VARIABLES;
    let end = from + setting.numbers[at + VARIABLE_COUNT] as usize;
    all_bound(setting.numbers, first, n, from, end)
}

pub fn good_rules(setting: &LoadedSetting) -> bool
    requires { HoldsSetting setting.now }
    ensures { ForSettingOf setting.now (λ P. result ≡ every (good_rule P) P.setting.rules) }
{
    (0..setting.counts[RULES_BODY]).all(|i| good_rule(setting, RULES_AT + i * RULE_WIDTH))
}
