// A question: how many names of each sort it declares, and its statements in a table of 64 records.
ghost use Rattle.std.specs.Prelude.{◌≡◌};
ghost use Rattle.question.specs.Questions.{empty_question};

use statement::{ElementName, Statement};

// A statement of the table. Document 01 names this form: an enum in a record struct, and an array of those records.
#[derive(Clone, Copy)]
pub struct Record {
    pub statement: Statement,
}

// The table is a fixed array with a count beside it, as document 01 has it, and for want of a heap.
#[derive(Clone, Copy)]
pub struct Question {
    pub elements: u8,
    pub sets: u8,
    pub count: usize,
    pub table: [Record; 64],
}

impl Question {
    pub const MAX_ELEMENTS: u8 = 8;

    pub const MAX_SETS: u8 = 16;

    pub const MAX_STATEMENTS: usize = 64;

    pub const MAX_TERMS: usize = 12;

    pub const MAX_ROWS: usize = 768;

    // No names and no statements; each record of the table is "0 = 0" of element names.
    pub fn empty() -> Question
        ensures { result ≡ empty_question }
    {
        let idle = Record {
            statement: Statement::ElementsEqual(ElementName(0), ElementName(0)),
        };
        Question {
            elements: 0,
            sets: 0,
            count: 0,
            table: [idle; 64],
        }
    }
}
