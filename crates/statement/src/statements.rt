// The eleven kinds of statements, each with the names it carries in the order of its body.
ghost use Rattle.std.specs.Prelude.{◌≡◌};
ghost use Rattle.statement.specs.Statements.{tag_of, witness};

use crate::names::{ElementName, SetName};

#[derive(Clone, Copy)]
pub enum Statement {
    // 10: a = b
    ElementsEqual(ElementName, ElementName),
    // 11: a ≠ b
    ElementsDiffer(ElementName, ElementName),
    // 12: a in x
    In(ElementName, SetName),
    // 13: a not in x
    NotIn(ElementName, SetName),
    // 20: x = y
    SetsEqual(SetName, SetName),
    // 21: x ≠ y, the one kind that makes a witness
    SetsDiffer(SetName, SetName),
    // 22: x empty
    Empty(SetName),
    // 23: x = {a}
    Single(SetName, ElementName),
    // 30: x = y ∪ z
    Union(SetName, SetName, SetName),
    // 31: x = y ∩ z
    Intersection(SetName, SetName, SetName),
    // 32: x = y \ z
    Difference(SetName, SetName, SetName),
}

impl Statement {
    // The tag of the statement's field in a question file.
    pub fn tag(self) -> u8
        ensures { result ≡ tag_of self }
    {
        match self {
            Statement::ElementsEqual(_, _) => 0x10,
            Statement::ElementsDiffer(_, _) => 0x11,
            Statement::In(_, _) => 0x12,
            Statement::NotIn(_, _) => 0x13,
            Statement::SetsEqual(_, _) => 0x20,
            Statement::SetsDiffer(_, _) => 0x21,
            Statement::Empty(_) => 0x22,
            Statement::Single(_, _) => 0x23,
            Statement::Union(_, _, _) => 0x30,
            Statement::Intersection(_, _, _) => 0x31,
            Statement::Difference(_, _, _) => 0x32,
        }
    }
}

// How many witnesses a statement makes.
#[tactic(auto, unfolding(crate::specs::Statements::witness))]
pub fn witness_of(s: Statement) -> usize
    ensures { result ≡ witness s }
{
    match s {
        Statement::SetsDiffer(_, _) => 1,
        _ => 0,
    }
}
