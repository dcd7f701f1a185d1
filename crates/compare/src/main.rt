// The library compared with a second solver, on every question of a small shape and on questions drawn at random, and with
// the stored verdicts of an outside solver. What this prints is compared with the file stdout.
#![tactic(auto)]

mod assignments;
mod clashes;
mod comparing;
mod drawn;
mod judged;
mod models;
mod orders;
mod outside;
mod patterns;
mod pens;
mod printing;
mod said;
mod small;
mod trials;

fn room() -> [u8; 131072] {
    [0; 131072]
}

fn main() {
    printing::text(b"every small question: ");
    printing::tally(small::every_question());
    printing::text(b"drawn at random: ");
    printing::tally(drawn::drawn_questions());
    let mut input = room();
    let n = io::read_full(0, &mut input);
    printing::text(b"verdicts of cvc5: ");
    printing::tally(outside::verdicts(&input[..n]));
}
