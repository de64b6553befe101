// A pack's bytes: its contents (refusal 3), and its records by a cursor.
#![tactic(auto)]

pub mod bytes;
pub mod contents;
pub mod cursor;
pub mod kinds;
