// The words of a `v` line: each is a variable's value, or the 0 behind all values.
ghost use Rattle.std.specs.Prelude.{◌≡◌};
ghost use Rattle.text.specs.Pieces.{space, pieces};
ghost use Rattle.lines.specs.Steps.{value_step, last_step, number_step, word_step, word_steps};

use crate::readings::{Reading, Stage};
use text::{Literal, literal_in};

// What stands between words.
pub(crate) const SPACE: u8 = 0x20;

// A variable's value: each stands once.
fn value_step(r: Reading, l: Literal) -> Reading
    ensures { result ≡ value_step r l }
{
    if r.value(l.variable).is_some() {
        return r.at_stage(Stage::Fault);
    }
    r.with_value(l)
}

// The 0: every variable has stood.
fn last_step(r: Reading, most: u32) -> Reading
    ensures { result ≡ last_step most r }
{
    if r.all_said(most) {
        return r.at_stage(Stage::Valued);
    }
    r.at_stage(Stage::Fault)
}

// A number: the 0, or a variable's value.
fn number_step(r: Reading, word: Option<Literal>, most: u32) -> Reading
    ensures { result ≡ number_step most r word }
{
    match word {
        None => r.at_stage(Stage::Fault),
        Some(l) if l.variable == 0 => last_step(r, most),
        Some(l) => value_step(r, l),
    }
}

// A word: nothing stands behind the 0.
fn word_step(r: Reading, word: &[u8], most: u32) -> Reading
    ensures { result ≡ word_step most r word.now }
{
    match r.stage {
        Stage::Values => number_step(r, literal_in(word, most), most),
        _ => r.at_stage(Stage::Fault),
    }
}

// The words of some bytes, one space between them.
pub(crate) fn word_steps(r: &mut Reading, words: &[u8], most: u32)
    ensures { r.new ≡ word_steps most r.old (pieces space words.now) }
{
    *r = words
        .split(|b| *b == SPACE)
        .fold(*r, |r, word| word_step(r, word, most));
}
