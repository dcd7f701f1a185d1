// The test of one statement where others stand already: room for it (7), its names (6), room for its witness (8).
// Whoever takes statements in takes this step, and says at which place the refusal is told.
ghost use Rattle.std.specs.Prelude.{◌≡◌};
ghost use Rattle.question.specs.Admissions.{admission, addition, refusal_at};

use crate::questions::Question;
use outcome::Refusal;
use statement::{Statement, name_test};

// Why a statement may not stand.
#[derive(Clone, Copy)]
pub enum NotAdmitted {
    TooManyStatements,
    // The position in the body of the leftmost name that is not declared.
    Undeclared(usize),
    TooManyTerms,
}

impl NotAdmitted {
    // The refusal at a place.
    pub fn at(self, place: usize) -> Refusal
        ensures { result ≡ refusal_at place self }
    {
        match self {
            NotAdmitted::TooManyStatements => Refusal::new(Refusal::TOO_MANY_STATEMENTS, place),
            NotAdmitted::Undeclared(_) => Refusal::new(Refusal::NAME_NOT_DECLARED, place),
            NotAdmitted::TooManyTerms => Refusal::new(Refusal::TOO_MANY_TERMS, place),
        }
    }
}

// May a statement stand where `terms` terms stand already: its names are declared (6), and its witness is not one too many (8).
#[tactic(auto, unfolding(crate::specs::Admissions::admission))]
pub fn admit(s: Statement, elements: u8, sets: u8, terms: usize) -> Result<(), NotAdmitted>
    ensures { result ≡ admission elements sets terms s }
{
    name_test(s, elements, sets).map_err(NotAdmitted::Undeclared)?;
    match s {
        Statement::SetsDiffer(_, _) if Question::MAX_TERMS <= terms => {
            Err(NotAdmitted::TooManyTerms)
        }
        _ => Ok(()),
    }
}

// May a statement be added behind `count` others, where `terms` terms stand: 7, 6, 8.
#[tactic(auto, unfolding(crate::specs::Admissions::addition))]
pub fn may_add(
    s: Statement,
    elements: u8,
    sets: u8,
    count: usize,
    terms: usize,
) -> Result<(), NotAdmitted>
    ensures { result ≡ addition elements sets count terms s }
{
    if Question::MAX_STATEMENTS <= count {
        return Err(NotAdmitted::TooManyStatements);
    }
    admit(s, elements, sets, terms)
}
