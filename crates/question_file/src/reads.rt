// The reader of question files: bytes to a question, or a refusal with its number and place.
ghost use Rattle.std.specs.Prelude.{◌≡◌};
ghost use Rattle.question_file.specs.Reads.{read_question};

use crate::fields::{Said, field_at};
use building::declare;
use outcome::Refusal;
use question::{Question, Record, check_names, may_add};
use statement::witness_of;

// The question of a file, field by field from its first byte on; after 7F, 9 at the first extra byte.
// The question is built in place: to hand it on with each field would cost more than all the rest of reading.
// A `loop`, since only a field says where the next one begins: there is no range or slice of fields to go over.
pub fn read_question(bytes: &[u8]) -> Result<Question, Refusal>
    ensures { result ≡ read_question bytes.now }
{
    let mut at: usize = 0;
    let mut total: usize = 0;
    let mut q = Question::empty();
    loop {
        match field_at(bytes, at)? {
            Said::Names(elements, sets, next) => {
                check_names(elements, sets, at)?;
                q = declare(elements, sets);
                total = elements as usize;
                at = next;
            }
            Said::Stated(s, next) => {
                let count = q.count;
                if let Err(reason) = may_add(s, q.elements, q.sets, count, total) {
                    return Err(reason.at(at));
                }
                total += witness_of(s);
                q.table[count] = Record { statement: s };
                q.count = count + 1;
                at = next;
            }
            Said::Ended(place) => {
                if place < bytes.len() {
                    return Err(Refusal::new(Refusal::BYTES_AFTER_END, place));
                }
                return Ok(q);
            }
        }
    }
}
