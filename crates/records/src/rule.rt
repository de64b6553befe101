// A rule's numbers: its atoms and how many, its head's variables and how many, its head.
ghost use Rattle.std.specs.Prelude.{length, replicate, take, ◌≡◌, ◌+◌, ◌≤◌};
ghost use mathlib.Core.List.{◌++◌, flat_map};
ghost use Rattle.meaning.specs.Limits.{atoms_length, head_width, max_head_variables, rule_width};
ghost use Rattle.meaning.specs.Tables.{atom_numbers, head_arguments, head_numbers};
ghost use Rattle.pack.specs.Records.{atom_of};
ghost use Rattle.pack.specs.Shown.{head_at, made};
ghost use Rattle.records.specs.Kept.{ForAtomsAt, Put, RulePut, atoms_part, head_part};

use crate::put::{put, put_bytes};
use meaning::{ATOM_WIDTH, ATOMS_LENGTH, HEAD_WIDTH, MAX_HEAD_VARIABLES};
use pack::cursor::{Atom, Head, Object, Rule};
use pack::kinds::HeadKind;

// Where a head's numbers start among a rule's: past how many atoms there are, and these.
const ATOMS_END: usize = 1 + ATOMS_LENGTH;

// Past how many variables a head has, and these.
const VARIABLES_END: usize = 1 + MAX_HEAD_VARIABLES;

// An atom's relation, how many variables, the variables, 0 where unused.
fn atom_numbers(atom: Atom) -> [u16; ATOM_WIDTH]
    ensures { result ≡ atom_numbers (made atom_of atom.entry) }
{
    let mut numbers = [0u16; ATOM_WIDTH];
    numbers[0] = atom.number as u16;
    numbers[1] = atom.items.len() as u16;
    put_bytes(atom.items, &mut numbers, 2);
    numbers
}

// A rule's atoms, 0 past them.
fn rule_atoms(rule: Rule) -> [u16; ATOMS_LENGTH]
    ensures { ForAtomsAt rule.entry.first rule.entry.count (λ as'. result ≡ take atoms_length (flat_map atom_numbers as' ++ replicate atoms_length 0)) }
{
    let mut out = [0u16; ATOMS_LENGTH];
    let mut c = rule.first;
    for i in 0..rule.count as usize {
        let Some((atom, next)) = c.atom() else {
            return out;
        };
        put(&atom_numbers(atom), &mut out, i * ATOM_WIDTH);
        c = next;
    }
    out
}

// A head's variables, the subject's before the object's; 0 past them.
fn head_variables(head: Head) -> [u16; MAX_HEAD_VARIABLES]
    ensures { result ≡ take max_head_variables (head_arguments (head_at head.entry) ++ replicate max_head_variables 0) }
{
    let mut vars = [0u16; MAX_HEAD_VARIABLES];
    let own = head.subject.items;
    put_bytes(own, &mut vars, 0);
    match head.object {
        Object::Nothing => vars,
        Object::Term(other) => {
            put_bytes(other.items, &mut vars, own.len());
            vars
        }
        Object::Variable(v) => {
            put(&[v as u16], &mut vars, own.len());
            vars
        }
    }
}

// How many variables a head has.
fn variable_count(head: Head) -> u16
    ensures { result ≡ length (head_arguments (head_at head.entry)) }
{
    let own = head.subject.items.len();
    let more = match head.object {
        Object::Nothing => 0,
        Object::Term(other) => other.items.len(),
        Object::Variable(_) => 1,
    };
    (own + more) as u16
}

// A head's numbers.
fn head_numbers(head: Head) -> [u16; HEAD_WIDTH]
    ensures { result ≡ head_numbers (head_at head.entry) }
{
    let constructor = head.subject.number as u16;
    let arguments = head.subject.items.len() as u16;
    let named = head.label as u16;
    let (kind, other, more) = match head.object {
        Object::Nothing => (HeadKind::Type, 0, 0),
        Object::Term(t) => (HeadKind::Link, t.number as u16, t.items.len() as u16),
        Object::Variable(_) => (HeadKind::Value, 0, 1),
    };
    [
        kind.number() as u16,
        constructor,
        arguments,
        named,
        other,
        more,
    ]
}

// Writes how many atoms there are, and these.
fn put_atoms(rule: Rule, out: &mut [u16], at: usize)
    requires { at + (1 + atoms_length) ≤ length out.old }
    ensures { ForAtomsAt rule.entry.first rule.entry.count (λ as'. Put (atoms_part as') at out.old out.new) }
{
    put(&[rule.count as u16], out, at);
    put(&rule_atoms(rule), out, at + 1);
}

// Writes how many variables a head has, these, and its numbers.
fn put_head(head: Head, out: &mut [u16], at: usize)
    requires { at + (1 + max_head_variables + head_width) ≤ length out.old }
    ensures { Put (head_part (head_at head.entry)) at out.old out.new }
{
    put(&[variable_count(head)], out, at);
    put(&head_variables(head), out, at + 1);
    put(&head_numbers(head), out, at + VARIABLES_END);
}

// Writes a rule's numbers from a place on.
pub fn put_rule(rule: Rule, out: &mut [u16], at: usize)
    requires { at + rule_width ≤ length out.old }
    ensures { RulePut rule.entry at out.old out.new }
{
    put_atoms(rule, out, at);
    put_head(rule.head, out, at + ATOMS_END);
}
