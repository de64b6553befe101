// Refusals 5 and 6 on loaded records: those of one body are compared two by two, texts at their places in the bytes.
#![tactic(auto)]

mod compare; // texts at their places

ghost use Rattle.std.specs.Prelude.{◌≡◌, ◌<◌};
ghost use Rattle.meaning.specs.WellFormed.{duplicates, prefix_clash};
ghost use Rattle.texts.specs.Compared.{first_of, SaysAny, SaysBefore, SaysOfPack, SaysTwo, SomePack, SomeRecords, SomeShows, width_of};

use crate::compare::{begins_at, same_at};
use meaning::{
    CONSTRUCTOR_WIDTH, CONSTRUCTORS_AT, CONSTRUCTORS_BODY, PREDICATES_AT, PREDICATES_BODY,
    SHAPE_WIDTH, SHAPES_AT, SHAPES_BODY, TEXT_WIDTH, TYPES_AT, TYPES_BODY, VALUES_AT, VALUES_BODY,
};
use records::setting::LoadedSetting;

// What is compared of a record: its text, its prefix, or its type and predicate.
#[derive(Clone, Copy)]
pub enum Key {
    Text,
    Prefix,
    Cell,
}

// How many numbers a record has.
fn width_of(key: Key) -> usize
    ensures { result ≡ width_of key }
{
    match key {
        Key::Text => TEXT_WIDTH,
        Key::Prefix => CONSTRUCTOR_WIDTH,
        Key::Cell => SHAPE_WIDTH,
    }
}

// Where the two numbers of its key stand among them.
fn first_of(key: Key) -> usize
    ensures { result ≡ first_of key }
{
    match key {
        Key::Text => 0,
        Key::Prefix => 1,
        Key::Cell => 0,
    }
}

// Whether two records, each by the two numbers of its key, are what the refusal forbids.
fn clash_at(s: &[u8], key: Key, a: usize, n: usize, b: usize, m: usize) -> bool
    requires { SomeShows key s.now a n × SomeShows key s.now b m }
    ensures { SaysTwo key s.now a n b m result }
{
    match key {
        Key::Text => same_at(s, a, n, b, m),
        Key::Prefix => begins_at(s, a, n, b, m) || begins_at(s, b, m, a, n),
        Key::Cell => a == b && n == m,
    }
}

// Whether one of the records before record j clashes with it; the first stands at `at`.
fn clash_before(s: &[u8], key: Key, numbers: &[u16], at: usize, n: usize, j: usize) -> bool
    requires { SomeRecords key s.now numbers.now at n × (j < n) }
    ensures { SaysBefore key s.now numbers.now at n j result }
{
    let width = width_of(key);
    let first = at + first_of(key);
    let last = first + j * width;
    let b = numbers[last] as usize;
    let m = numbers[last + 1] as usize;
    (0..j).any(|i| {
        let place = first + i * width;
        let a = numbers[place] as usize;
        let k = numbers[place + 1] as usize;
        clash_at(s, key, a, k, b, m)
    })
}

// Whether two of n records clash: each is compared with those before it; the first stands at `at`.
pub fn clash(s: &[u8], key: Key, numbers: &[u16], at: usize, n: usize) -> bool
    requires { SomeRecords key s.now numbers.now at n }
    ensures { SaysAny key s.now numbers.now at n result }
{
    (0..n).any(|j| clash_before(s, key, numbers, at, n, j))
}

// Refusal 5.
pub fn has_duplicates(s: &[u8], setting: &LoadedSetting) -> bool
    requires { SomePack s.now setting.now.counts setting.now.numbers.now }
    ensures { SaysOfPack duplicates s.now setting.now.counts setting.now.numbers.now result }
{
    let LoadedSetting { counts, numbers } = *setting;
    clash(s, Key::Text, numbers, VALUES_AT, counts[VALUES_BODY])
        || clash(s, Key::Text, numbers, TYPES_AT, counts[TYPES_BODY])
        || clash(
            s,
            Key::Text,
            numbers,
            PREDICATES_AT,
            counts[PREDICATES_BODY],
        )
        || clash(s, Key::Cell, numbers, SHAPES_AT, counts[SHAPES_BODY])
}

// Refusal 6.
pub fn has_prefix_clash(s: &[u8], setting: &LoadedSetting) -> bool
    requires { SomePack s.now setting.now.counts setting.now.numbers.now }
    ensures { SaysOfPack prefix_clash s.now setting.now.counts setting.now.numbers.now result }
{
    clash(
        s,
        Key::Prefix,
        setting.numbers,
        CONSTRUCTORS_AT,
        setting.counts[CONSTRUCTORS_BODY],
    )
}
