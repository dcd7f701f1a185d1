// Rows written at the front of a lent part of the buffer: one, one for each term, those of a rule.
ghost use Rattle.std.specs.Prelude.{◌≡◌, [], ◌∷◌, ◌≤◌, ◌<◌, length};
ghost use Rattle.outcome.specs.Writes.{over};
ghost use Rattle.theory.specs.Rules.{row};
ghost use Rattle.row.specs.Rows.{pack_row};
ghost use Rattle.row.specs.Tests.{said};
ghost use Rattle.reduction.specs.Rules.{said_rule, each_term, rule_rows};

use crate::rules::Rule;
use row::{RowParts, Test, pack};

// One row.
fn put_one(term: u8, test: Test, rows: &mut [u32]) -> usize
    requires { 1 ≤ length rows.old }
    ensures { (result ≡ 1) × (rows.new ≡ over (pack_row (row term (said test)) ∷ []) rows.old) }
{
    rows[0] = pack(RowParts::new(term, test));
    1
}

// The same test for each term, terms going upward.
fn put_each(test: Test, terms: usize, rows: &mut [u32]) -> usize
    requires { (terms ≤ 12) × (length (each_term (said test) terms) ≤ length rows.old) }
    ensures { (result ≡ length (each_term (said test) terms)) × (rows.new ≡ over (each_term (said test) terms) rows.old) }
{
    let parts = RowParts::new(0, test);
    for c in 0..terms {
        rows[c] = pack(RowParts {
            term: c as u8,
            ..parts
        });
    }
    terms
}

// How many rows a rule has: one, or one for each of so many terms.
pub(crate) fn row_count(rule: Rule, terms: usize) -> usize
    ensures { result ≡ length (rule_rows terms 0 (said_rule rule)) }
{
    match rule {
        Rule::OneTerm(_, _) | Rule::OwnWitness(_) => 1,
        Rule::EachTerm(_) => terms,
    }
}

// The rows of a rule, where there are so many terms and the next witness is term `witness`.
pub(crate) fn put_rule(rule: Rule, terms: usize, witness: usize, rows: &mut [u32]) -> usize
    requires { (terms ≤ 12) × (length (rule_rows terms witness (said_rule rule)) ≤ length rows.old) × (witness < 256) }
    ensures { (result ≡ length (rule_rows terms witness (said_rule rule))) × (rows.new ≡ over (rule_rows terms witness (said_rule rule)) rows.old) }
{
    match rule {
        Rule::OneTerm(term, test) => put_one(term, test, rows),
        Rule::EachTerm(test) => put_each(test, terms, rows),
        Rule::OwnWitness(test) => put_one(witness as u8, test, rows),
    }
}
