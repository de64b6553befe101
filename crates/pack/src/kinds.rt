// The kinds of record, and of a rule's head.
ghost use Rattle.std.specs.Prelude.{◌≡◌};
ghost use Rattle.pack.specs.Kinds.{KindOf, ReadAs, kind_number};

#[derive(Clone, Copy)]
pub enum Kind {
    Value,
    Relation,
    Dependency,
    Name,
    Shape,
    Constructor,
    Rule,
    Row,
}

// A head says a type of its subject, a link to a term, or a link to a value.
#[derive(Clone, Copy)]
pub enum HeadKind {
    Type,
    Link,
    Value,
}

impl HeadKind {
    // Its number in a pack.
    pub fn number(self) -> u8
        ensures { result ≡ kind_number self }
    {
        match self {
            HeadKind::Type => 0,
            HeadKind::Link => 1,
            HeadKind::Value => 2,
        }
    }

    // The kind of a number, if there is one.
    pub fn from_number(number: u8) -> Option<HeadKind>
        ensures { KindOf number result }
    {
        match number {
            0 => Some(HeadKind::Type),
            1 => Some(HeadKind::Link),
            2 => Some(HeadKind::Value),
            _ => None,
        }
    }
}

// The kind by which a head of a number is read: any number above 1 is that of a value.
impl From<u8> for HeadKind {
    ghost from_gives = { λ number kind. ReadAs number kind };

    fn from(number: u8) -> HeadKind {
        HeadKind::from_number(number).unwrap_or(HeadKind::Value)
    }
}
