// The keys of all rules' heads, each rule's in its part of a lent slice.
#![tactic(auto)]

ghost use Rattle.names.specs.PackGiven.{ForResolvedOf, HoldsResolved};
ghost use Rattle.std.specs.Prelude.{◌≡◌, ◌≤◌, length, take, drop};
ghost use Rattle.matching.specs.Rule.{ListedOrOver};
ghost use Rattle.meaning.specs.Limits.{candidates_length, heads_length};
ghost use Rattle.rule_heads.specs.Answer.{FoundOr};
ghost use Rattle.rule_heads.specs.RuleOf.{Bytes, ForRuleOf, IsRuleOf, RuleKey};

use core_graph::heads::Counts;
use matching::rule_heads;
use meaning::{
    ATOMS_LENGTH, MAX_HEAD_VARIABLES, MAX_HEADS, MAX_RULES, ROW_WIDTH, ROWS_BODY, RULE_WIDTH,
    RULES_AT, RULES_BODY,
};
use records::setting::LoadedSetting;
use sets::ordered::Full;
use std::array;

// Where a rule's parts are: how many variables its head has, these.
const VARIABLE_COUNT: usize = 1 + ATOMS_LENGTH;

const VARIABLES: usize = VARIABLE_COUNT + 1;

// How many rules there are and how many keys each has.
#[derive(Clone, Copy)]
pub struct AllHeads {
    pub count: usize,
    pub counts: Counts,
}

// So many numbers from a place on, as bytes.
fn bytes_at<const N: usize>(numbers: &[u16], at: usize) -> [u8; N]
    requires { Bytes numbers.now at N }
    ensures { result ≡ take N (drop at numbers.now) }
{
    array::from_fn(|i| numbers[at + i] as u8)
}

// The keys of the heads of the rule at a place, ascending at the front of keys.
fn heads_of(
    numbers: &[u16],
    at: usize,
    rows: &[u16],
    keys: &mut [u64],
    work: &mut [u64],
) -> Result<usize, Full>
    requires { IsRuleOf numbers.now at rows.now × (candidates_length ≤ length work.old) }
    ensures { ForRuleOf numbers.now at rows.now (λ P r. ListedOrOver result keys.new (RuleKey P r)) }
{
    let atoms: [u8; ATOMS_LENGTH] = bytes_at(numbers, at + 1);
    let vars: [u8; MAX_HEAD_VARIABLES] = bytes_at(numbers, at + VARIABLES);
    let atom_count = numbers[at] as usize;
    let var_count = numbers[at + VARIABLE_COUNT] as usize;
    rule_heads(rows, atoms, atom_count, vars, var_count, keys, work)
}

// The keys of all rules' heads, rule r's from r * MAX_HEADS on; or there are more than the core can hold.
pub fn all_heads(
    setting: &LoadedSetting,
    rows: &[u16],
    heads: &mut [u64],
    work: &mut [u64],
) -> Result<AllHeads, Full>
    requires { HoldsResolved setting.now rows.now × (heads_length ≤ length heads.old) × (candidates_length ≤ length work.old) }
    ensures { ForResolvedOf setting.now rows.now (λ P. FoundOr result P heads.new) }
{
    let count = setting.counts[RULES_BODY];
    let many = setting.counts[ROWS_BODY] * ROW_WIDTH;
    let mut each = [0usize; MAX_RULES];
    for r in 0..count {
        let at = RULES_AT + r * RULE_WIDTH;
        let start = r * MAX_HEADS;
        let end = start + MAX_HEADS;
        let n = heads_of(
            setting.numbers,
            at,
            &rows[..many],
            &mut heads[start..end],
            work,
        )?;
        each[r] = n;
    }
    Ok(AllHeads {
        count,
        counts: each,
    })
}
