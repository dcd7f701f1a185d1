// A statement and the body of its field: from a tag and bytes to the statement, and back.
ghost use Rattle.std.specs.Prelude.{◌≡◌, length};
ghost use Rattle.question_file.specs.Bodies.{body_of, longest_body, statement_of};
ghost use Rattle.outcome.specs.Padded.{padded};

use field::{BodyLength, File, length_of};
use statement::{ElementName, SetName, Statement};

// The statement of a tag and the first bytes of its body, if the tag is a statement's; a kind with fewer names ignores the last ones.
// Tags are numbers, since they are bytes of a file; behind this a statement is a variant.
#[tactic(auto, unfolding(crate::specs::Bodies::statement_of))]
pub(crate) fn statement_of(tag: u8, a: u8, b: u8, c: u8) -> Option<Statement>
    ensures { result ≡ statement_of tag a b c }
{
    match tag {
        0x10 => Some(Statement::ElementsEqual(ElementName(a), ElementName(b))),
        0x11 => Some(Statement::ElementsDiffer(ElementName(a), ElementName(b))),
        0x12 => Some(Statement::In(ElementName(a), SetName(b))),
        0x13 => Some(Statement::NotIn(ElementName(a), SetName(b))),
        0x20 => Some(Statement::SetsEqual(SetName(a), SetName(b))),
        0x21 => Some(Statement::SetsDiffer(SetName(a), SetName(b))),
        0x22 => Some(Statement::Empty(SetName(a))),
        0x23 => Some(Statement::Single(SetName(a), ElementName(b))),
        0x30 => Some(Statement::Union(SetName(a), SetName(b), SetName(c))),
        0x31 => Some(Statement::Intersection(SetName(a), SetName(b), SetName(c))),
        0x32 => Some(Statement::Difference(SetName(a), SetName(b), SetName(c))),
        _ => None,
    }
}

// The names of a statement in the order of its body, with 0 behind the last.
pub(crate) fn name_bytes(s: Statement) -> [u8; 3]
    ensures { result ≡ padded longest_body (body_of s) }
{
    match s {
        Statement::ElementsEqual(a, b) | Statement::ElementsDiffer(a, b) => [a.0, b.0, 0],
        Statement::In(a, x) | Statement::NotIn(a, x) => [a.0, x.0, 0],
        Statement::SetsEqual(x, y) | Statement::SetsDiffer(x, y) => [x.0, y.0, 0],
        Statement::Empty(x) => [x.0, 0, 0],
        Statement::Single(x, a) => [x.0, a.0, 0],
        Statement::Union(x, y, z)
        | Statement::Intersection(x, y, z)
        | Statement::Difference(x, y, z) => [x.0, y.0, z.0],
    }
}

// How long the body of a statement's field is, by the table of tags.
pub(crate) fn body_length(s: Statement) -> usize
    ensures { result ≡ length (body_of s) }
{
    match length_of(File::Question, s.tag()) {
        Some(BodyLength::Fixed(n)) => n,
        Some(BodyLength::Depends) => 0,
        None => 0,
    }
}
