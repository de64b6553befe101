// A cursor over a body's bytes. Each method reads one record, or a part of one, and returns it with the moved cursor; or nothing.
// It goes by value, with methods on self: a form that document 01 names.
ghost use Rattle.std.specs.Prelude.{length, ◌≤◌};
ghost use Rattle.meaning.specs.Limits.{max_atoms};

use crate::bytes::{Class, all_pass};
use crate::kinds::HeadKind;
use meaning::{
    MAX_ARGUMENTS, MAX_ATOMS, MAX_COLUMNS, MAX_NAME_BYTES, MAX_PREFIX_BYTES, MAX_VALUE_BYTES,
    MAX_VARIABLES,
};

// The bytes, the place in them of the next record, and the body's end.
#[derive(Clone, Copy)]
pub struct Cursor<'a> {
    pub bytes: &'a [u8],
    pub at: usize,
    pub end: usize,
    pub ghost before: { at ≤ end },
    pub ghost inside: { end ≤ length bytes.now },
}

// A text by its place.
#[derive(Clone, Copy)]
pub struct Text {
    pub start: usize,
    pub len: usize,
}

#[derive(Clone, Copy)]
pub struct Dependency {
    pub relation: u8,
    pub left: u8,
    pub right: u8,
}

#[derive(Clone, Copy)]
pub struct Shape {
    pub owner: u8,
    pub predicate: u8,
    pub target: u8,
    pub multiplicity: u8,
}

#[derive(Clone, Copy)]
pub struct Constructor {
    pub arity: u8,
    pub prefix: Text,
}

// A number, and the bytes that it goes with, so many at most.
#[derive(Clone, Copy)]
pub struct Tuple<'a, const MOST: usize> {
    pub number: u8,
    pub items: &'a [u8],
    pub ghost few: { length items.now ≤ MOST },
}

// With a bound that is known when it is read: a byte counts the items, so there are 255 at most.
pub type Items<'a> = Tuple<'a, 255>;

pub type Atom<'a> = Tuple<'a, MAX_COLUMNS>;

pub type Term<'a> = Tuple<'a, MAX_ARGUMENTS>;

pub type Row<'a> = Tuple<'a, MAX_COLUMNS>;

// What a head has after its label, by its kind: nothing, a term, or a value's variable.
#[derive(Clone, Copy)]
pub enum Object<'a> {
    Nothing,
    Term(Term<'a>),
    Variable(u8),
}

// A rule's head: its subject, its type or predicate, and its object.
#[derive(Clone, Copy)]
pub struct Head<'a> {
    pub subject: Term<'a>,
    pub label: u8,
    pub object: Object<'a>,
}

// A rule: how many atoms, where they start, and its head.
#[derive(Clone, Copy)]
pub struct Rule<'a> {
    pub count: u8,
    pub first: Cursor<'a>,
    pub head: Head<'a>,
    pub ghost few: { count ≤ max_atoms },
}

impl<'a> Cursor<'a> {
    ghost use Rattle.std.specs.Prelude.{◌+◌, IfSome};
    ghost use Rattle.pack.specs.Readers.{byte, byte_in, sized};
    ghost use Rattle.pack.specs.Records.{value, relation, name, tuple, atom, atom_of, term, term_of, row, row_of, atoms};
    ghost use Rattle.pack.specs.Classes.{in_class};
    ghost use Rattle.pack.specs.Shown.{Past, pair, ByteShown, TextShown, DependencyShown, ShapeShown, ConstructorShown, TupleShown, MovedShown, ObjectShown, HeadShown, RuleShown, HeadKindShown};

    // The cursor n bytes on.
    fn past(self, n: usize) -> Self
        requires { self.at + n ≤ self.end }
        ensures { Past self.entry n result }
    {
        let Cursor { bytes, at, end } = self;
        Cursor {
            bytes,
            at: at + n,
            end,
        }
    }

    pub fn byte(self) -> Option<(u8, Self)>
        ensures { ByteShown byte self.entry result }
    {
        if self.end <= self.at {
            return None;
        }
        Some((self.bytes[self.at], self.past(1)))
    }

    // A byte in bounds.
    pub fn byte_in(self, lo: u8, hi: u8) -> Option<(u8, Self)>
        ensures { ByteShown (byte_in lo hi) self.entry result }
    {
        let (value, next) = self.byte()?;
        if !(lo..=hi).contains(&value) {
            return None;
        }
        Some((value, next))
    }

    // A length or count in bounds, and that many bytes of the class.
    pub fn sized(self, class: Class, lo: u8, hi: u8) -> Option<(Text, Self)>
        ensures { TextShown (sized (in_class class) lo hi) self.entry result }
    {
        let (value, next) = self.byte_in(lo, hi)?;
        let start = next.at;
        let len = value as usize;
        if next.end - start < len {
            return None;
        }
        if !all_pass(next.bytes, start, len, class) {
            return None;
        }
        Some((Text { start, len }, next.past(len)))
    }

    pub fn value(self) -> Option<(Text, Self)>
        ensures { TextShown value self.entry result }
    {
        self.sized(Class::Any, 0, MAX_VALUE_BYTES as u8)
    }

    pub fn relation(self) -> Option<(u8, Self)>
        ensures { ByteShown relation self.entry result }
    {
        self.byte_in(1, MAX_COLUMNS as u8)
    }

    pub fn dependency(self) -> Option<(Dependency, Self)>
        ensures { DependencyShown self.entry result }
    {
        let (relation, a) = self.byte()?;
        let (left, b) = a.byte()?;
        let (right, next) = b.byte()?;
        Some((
            Dependency {
                relation,
                left,
                right,
            },
            next,
        ))
    }

    // A type's or a predicate's name.
    pub fn name(self) -> Option<(Text, Self)>
        ensures { TextShown name self.entry result }
    {
        self.sized(Class::Letter, 1, MAX_NAME_BYTES as u8)
    }

    pub fn shape(self) -> Option<(Shape, Self)>
        ensures { ShapeShown self.entry result }
    {
        let (owner, a) = self.byte()?;
        let (predicate, b) = a.byte()?;
        let (target, c) = b.byte()?;
        let (multiplicity, next) = c.byte_in(1, 4)?;
        Some((
            Shape {
                owner,
                predicate,
                target,
                multiplicity,
            },
            next,
        ))
    }

    pub fn constructor(self) -> Option<(Constructor, Self)>
        ensures { ConstructorShown self.entry result }
    {
        let (arity, a) = self.byte_in(1, MAX_ARGUMENTS as u8)?;
        let (prefix, next) = a.sized(Class::Prefix, 1, MAX_PREFIX_BYTES as u8)?;
        Some((Constructor { arity, prefix }, next))
    }

    // A number, a count from 1 to the bound, and that many bytes of the class.
    pub fn tuple_within(self, class: Class, most: u8) -> Option<(Items<'a>, Self)>
        ensures reads { TupleShown pair (tuple pair (in_class class) most) self.entry result }
        ensures few { IfSome result (λ p. length p.0.items.now ≤ most) }
    {
        let (number, a) = self.byte()?;
        let (Text { start, len }, next) = a.sized(class, 1, most)?;
        let items = &a.bytes[start..start + len];
        Some((Tuple { number, items }, next))
    }

    // The same, where the bound is a constant.
    pub fn tuple<const MOST: usize>(self, class: Class) -> Option<(Tuple<'a, MOST>, Self)>
        requires { MOST ≤ 255 }
        ensures { TupleShown pair (tuple pair (in_class class) MOST) self.entry result }
    {
        let (Tuple { number, items }, next) = self.tuple_within(class, MOST as u8)?;
        Some((Tuple { number, items }, next))
    }

    pub fn atom(self) -> Option<(Atom<'a>, Self)>
        ensures { TupleShown atom_of atom self.entry result }
    {
        self.tuple(Class::Variable)
    }

    pub fn term(self) -> Option<(Term<'a>, Self)>
        ensures { TupleShown term_of term self.entry result }
    {
        self.tuple(Class::Variable)
    }

    pub fn row(self) -> Option<(Row<'a>, Self)>
        ensures { TupleShown row_of row self.entry result }
    {
        self.tuple(Class::Any)
    }

    // Past n atoms.
    pub fn atoms(self, n: u8) -> Option<Self>
        ensures { MovedShown (atoms n) self.entry result }
    {
        let mut c = self;
        for _ in 0..n {
            let (_, next) = c.atom()?;
            c = next;
        }
        Some(c)
    }

    pub fn head_kind(self) -> Option<(HeadKind, Self)>
        ensures { HeadKindShown self.entry result }
    {
        let (number, next) = self.byte()?;
        let kind = HeadKind::from_number(number)?;
        Some((kind, next))
    }

    // What a head of a kind has after its term and its type or predicate.
    pub fn object(self, kind: HeadKind) -> Option<(Object<'a>, Self)>
        ensures { ObjectShown kind self.entry result }
    {
        match kind {
            HeadKind::Type => Some((Object::Nothing, self)),
            HeadKind::Link => {
                let (term, next) = self.term()?;
                Some((Object::Term(term), next))
            }
            HeadKind::Value => {
                let (number, next) = self.byte()?;
                if MAX_VARIABLES <= number as usize {
                    return None;
                }
                Some((Object::Variable(number), next))
            }
        }
    }

    pub fn head(self, kind: HeadKind) -> Option<(Head<'a>, Self)>
        ensures { HeadShown kind self.entry result }
    {
        let (subject, a) = self.term()?;
        let (label, b) = a.byte()?;
        let (object, next) = b.object(kind)?;
        Some((
            Head {
                subject,
                label,
                object,
            },
            next,
        ))
    }

    pub fn rule(self) -> Option<(Rule<'a>, Self)>
        ensures { RuleShown self.entry result }
    {
        let (count, first) = self.byte_in(1, MAX_ATOMS as u8)?;
        let a = first.atoms(count)?;
        let (kind, b) = a.head_kind()?;
        let (head, next) = b.head(kind)?;
        Some((Rule { count, first, head }, next))
    }
}
