// The walk over the statements of an impossible question, from index 0 upward: a statement is dropped for good if what remains without it
// is still impossible. Where what remains without a whole run of statements is impossible, the walk would drop them one by one, since more
// statements stay impossible; so runs are tried while there are decisions to spare, which saves many where few statements clash.
ghost use Rattle.std.specs.Prelude.{◌≡◌, ◌+◌, ◌-◌, ◌≤◌, ◌<◌, IfSome};
ghost use Rattle.question.specs.Checks.{IsAccepted};
ghost use Rattle.clash.specs.Clashes.{without_model, clash_kept};
ghost use Rattle.clash.specs.Starts.{MayStart};

use building::drop_statements;
use decision::search_table;
use question::Question;

// The statements that are kept, as a question, and their old indexes: a fixed array, for want of a heap, whose entries past those are 0.
#[derive(Clone, Copy)]
pub struct Kept {
    pub part: Question,
    pub indexes: [u8; Question::MAX_STATEMENTS],
}

// Where a walk begins: how many statements at the front are dropped already, from which index on the statements are known to be possible,
// if that is known, and how many decisions are left.
#[derive(Clone, Copy)]
pub struct Start {
    pub from: usize,
    pub bound: Option<usize>,
    pub left: usize,
}

// Does the search find no model. The table is a part of one that was checked, so it is not checked again.
#[tactic(auto, unfolding(crate::specs::Clashes::without_model))]
pub(crate) fn is_impossible(q: Question) -> bool
    ensures { result ≡ without_model q }
{
    matches!(search_table(q), Ok(None))
}

// How many statements to leave out at once. One, unless more decisions are left than statements; else twice as many as were dropped the last time,
// or where it is known that fewer than up to `bound` can be dropped, half of those.
fn run_length(i: usize, count: usize, bound: Option<usize>, run: usize, left: usize) -> usize
    requires { (i < count) × (1 ≤ run) × IfSome bound (λ b. (i + 1 < b) × (b ≤ count)) }
    ensures { (1 ≤ result) × IfSome bound (λ b. i + result < b) × (i + result ≤ count) × (left ≤ count - i → result ≡ 1) }
{
    if left <= count - i {
        return 1;
    }
    match bound {
        Some(bound) => (bound - i) / 2,
        None => run.min(count - i),
    }
}

// The walk. `kept` statements stand before the index i; the statements from `bound` on, with those, are possible, if there are such.
// Each turn drops a run, keeps a statement or lowers `bound`. One decision for each statement is enough, so `left` never falls below 0.
pub(crate) fn walk(q: Question, start: Start) -> Kept
    requires { IsAccepted q × MayStart q start }
    ensures { result ≡ clash_kept q }
{
    let mut i = start.from;
    let mut part = drop_statements(q, 0, i);
    let mut indexes = [0; Question::MAX_STATEMENTS];
    let mut kept = 0;
    let mut bound = start.bound;
    let mut run = 1;
    let mut left = start.left;
    // No `for`: a turn passes a whole run, one statement or none.
    while i < q.count {
        if bound == Some(i + 1) {
            indexes[kept] = i as u8;
            kept += 1;
            i += 1;
            bound = None;
            run = 1;
        } else {
            let n = run_length(i, q.count, bound, run, left);
            let rest = drop_statements(part, kept, n);
            left -= 1;
            if is_impossible(rest) {
                part = rest;
                i += n;
                run = 2 * n;
            } else {
                bound = Some(i + n);
            }
        }
    }
    Kept { part, indexes }
}
