// How far the lines have been read: what may follow, and the values said so far, one for each variable by its number. What lies past the table is never said.
ghost use Rattle.std.specs.Prelude.{◌≡◌};
ghost use Rattle.lines.specs.declared.readings.Stage.TheVariants.{Values};
ghost use Rattle.lines.specs.Steps.{start, at_stage};
ghost use Rattle.lines.specs.Values.{value_of, with_value, all_said};

use text::Literal;

// What was read so far, which decides what may follow but for comments.
#[derive(Clone, Copy, PartialEq, Eq)]
pub enum Stage {
    // No line: `s SATISFIABLE` or `s UNSATISFIABLE` is due.
    Start,
    // `s SATISFIABLE` and some values: `v` lines are due.
    Values,
    // The 0 behind all values: nothing is due.
    Valued,
    // `s UNSATISFIABLE`: nothing is due.
    Refuted,
    // A line that can't stand where it stands.
    Fault,
}

// A value is there once it was said, and says then whether the variable is true.
#[derive(Clone, Copy)]
pub struct Reading {
    pub stage: Stage,
    pub values: [Option<bool>; Reading::VALUES],
}

impl Reading {
    // The most variables of any question: 66 pairs of 12 terms, 192 of a term and a set, and the spare.
    pub const MOST_VARIABLES: usize = 259;

    // A value for each number from 0 on.
    pub const VALUES: usize = Reading::MOST_VARIABLES + 1;

    // Nothing was read.
    pub(crate) fn start() -> Reading
        ensures { result ≡ start }
    {
        Reading {
            stage: Stage::Start,
            values: [None; Reading::VALUES],
        }
    }

    // What was read, at another stage.
    pub(crate) fn at_stage(self, stage: Stage) -> Reading
        ensures { result ≡ at_stage stage self }
    {
        Reading { stage, ..self }
    }

    // The value of the variable v, if it has one.
    pub fn value(&self, v: usize) -> Option<bool>
        ensures { result ≡ value_of self.now.values v }
    {
        self.values.get(v).copied().flatten()
    }

    // The value of one literal more.
    pub(crate) fn with_value(mut self, l: Literal) -> Reading
        ensures { result ≡ record { stage = Values; values = with_value self.values l } }
    {
        if l.variable < Reading::VALUES {
            self.values[l.variable] = Some(!l.denied);
        }
        self.at_stage(Stage::Values)
    }

    // Has every variable from 1 to `most` a value.
    pub(crate) fn all_said(&self, most: u32) -> bool
        ensures { result ≡ all_said most self.now.values }
    {
        (1..=most as usize).all(|v| self.value(v).is_some())
    }
}
