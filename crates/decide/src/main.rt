// The program: a question file on standard input, and on standard output its answer, or the report of its refusal.
// Everything that matters is in the library. No byte after the 395th alters what is read, so 4,096 are enough.
#![tactic(auto)]

use answer::Answer;
use outcome::Refusal;
use sayfudhoum::respond;

fn main() {
    let mut input = io::buffer();
    let n = io::read_full(0, &mut input);
    // Nothing that is written is longer than the longest answer, so 10 never comes (Program.antt in the library's proofs).
    let mut output = [0u8; Answer::MAX_BYTES];
    match respond(&input[0..n], &mut output) {
        Ok(count) => {
            io::write_all(1, &output[0..count]);
        }
        Err(_) => {}
    }
}
