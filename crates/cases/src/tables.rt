// A table as it may be handed in, of any bytes: E, S, the count, then four bytes a statement, its tag and its names.
pub(crate) use field::byte_at;
use question::{Question, Record};
use statement::{ElementName, SetName, Statement};

// Any tag but those of the others is taken for 32: a table in memory has no other kinds.
fn statement(tag: u8, a: u8, b: u8, c: u8) -> Statement {
    match tag {
        0x10 => Statement::ElementsEqual(ElementName(a), ElementName(b)),
        0x11 => Statement::ElementsDiffer(ElementName(a), ElementName(b)),
        0x12 => Statement::In(ElementName(a), SetName(b)),
        0x13 => Statement::NotIn(ElementName(a), SetName(b)),
        0x20 => Statement::SetsEqual(SetName(a), SetName(b)),
        0x21 => Statement::SetsDiffer(SetName(a), SetName(b)),
        0x22 => Statement::Empty(SetName(a)),
        0x23 => Statement::Single(SetName(a), ElementName(b)),
        0x30 => Statement::Union(SetName(a), SetName(b), SetName(c)),
        0x31 => Statement::Intersection(SetName(a), SetName(b), SetName(c)),
        _ => Statement::Difference(SetName(a), SetName(b), SetName(c)),
    }
}

pub(crate) fn table(bytes: &[u8]) -> Question {
    let mut q = Question::empty();
    q.elements = byte_at(bytes, 0);
    q.sets = byte_at(bytes, 1);
    q.count = byte_at(bytes, 2) as usize;
    let statements = bytes.get(3..).unwrap_or(&[]);
    for (record, s) in q.table.iter_mut().zip(statements.chunks(4)) {
        record.statement = statement(byte_at(s, 0), byte_at(s, 1), byte_at(s, 2), byte_at(s, 3));
    }
    q
}
