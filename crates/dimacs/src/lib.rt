// The clauses of a question as DIMACS text in a lent buffer: of a question value, and of question bytes.
// One walk over the clauses serves twice: into a buffer of one byte it counts, into the lent one it writes.
#![tactic(auto)]

mod files;
mod formulas;
mod heads;
mod literals;
mod pairs;
mod rows;
mod shapes;
mod tables;
mod triples;
mod writers;
mod writes;

pub use files::clauses_file;
pub use writes::write_clauses;
