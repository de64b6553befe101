// A record's numbers, written from a place on.
ghost use Rattle.std.specs.Prelude.{length, ◌+◌, ◌≤◌};
ghost use Rattle.meaning.specs.Limits.{max_pack_bytes};
ghost use Rattle.records.specs.Kept.{KeptShown, PlaceFits, SamePlace};
ghost use Rattle.records.specs.PackHeld.{width};

use crate::put::put;
use crate::row::row_numbers;
use crate::rule::put_rule;
use pack::cursor::{Cursor, Text};
use pack::kinds::Kind;

// The place of a text in 16 bits: an empty text may stand anywhere.
fn place(text: Text) -> u16
    requires { PlaceFits text }
    ensures { SamePlace text result }
{
    if text.len == 0 {
        return 0;
    }
    text.start as u16
}

// Reads the record at a cursor and writes its numbers from a place on.
pub fn load_record<'a>(c: Cursor<'a>, kind: Kind, out: &mut [u16], at: usize) -> Option<Cursor<'a>>
    requires { (length c.bytes.now ≤ max_pack_bytes) × (at + width kind ≤ length out.old) }
    ensures { KeptShown kind c.entry at out.old out.new result }
{
    match kind {
        Kind::Value => {
            let (text, next) = c.value()?;
            put(&[place(text), text.len as u16], out, at);
            Some(next)
        }
        Kind::Relation => {
            let (arity, next) = c.relation()?;
            put(&[arity as u16], out, at);
            Some(next)
        }
        Kind::Dependency => {
            let (d, next) = c.dependency()?;
            put(&[d.relation as u16, d.left as u16, d.right as u16], out, at);
            Some(next)
        }
        Kind::Name => {
            let (name, next) = c.name()?;
            put(&[place(name), name.len as u16], out, at);
            Some(next)
        }
        Kind::Shape => {
            let (shape, next) = c.shape()?;
            let numbers = [
                shape.owner as u16,
                shape.predicate as u16,
                shape.target as u16,
                shape.multiplicity as u16,
            ];
            put(&numbers, out, at);
            Some(next)
        }
        Kind::Constructor => {
            let (k, next) = c.constructor()?;
            put(
                &[k.arity as u16, place(k.prefix), k.prefix.len as u16],
                out,
                at,
            );
            Some(next)
        }
        Kind::Rule => {
            let (rule, next) = c.rule()?;
            put_rule(rule, out, at);
            Some(next)
        }
        Kind::Row => {
            let (row, next) = c.row()?;
            put(&row_numbers(row), out, at);
            Some(next)
        }
    }
}
