// From question bytes: the text of the clauses in a lent buffer.
ghost use Rattle.std.specs.Prelude.{◌≡◌, length};
ghost use Rattle.dimacs.specs.Writes.{file_clauses, file_clauses_over};

use crate::writes::write_clauses;
use outcome::Refusal;
use question_file::read_question;

// The refusals of the file, then 10. A refused call leaves the buffer as it was.
#[tactic(auto, using(question_file::proofs::RoundTrips::question_checked), unfolding(crate::specs::Writes::file_clauses, crate::specs::Writes::file_clauses_over, crate::specs::Writes::clauses_written, crate::specs::Writes::clauses_written_over))]
pub fn clauses_file(bytes: &[u8], buf: &mut [u8]) -> Result<usize, Refusal>
    ensures { (result ≡ file_clauses bytes.now (length buf.old)) × (buf.new ≡ file_clauses_over bytes.now buf.old) }
{
    write_clauses(read_question(bytes)?, buf)
}
