// The search over rows that are handed in: the row check's refusals, else the first model.
ghost use Rattle.std.specs.Prelude.{◌≡◌, map, ℕ, ◌^◌, ◌≤◌, ◌<◌, T, length, take, Ok};
ghost use Rattle.question.specs.Limits.{max_sets, max_terms};
ghost use Rattle.theory.specs.Arrangements.{classes};
ghost use Rattle.theory.specs.Solutions.{all_rows};
ghost use Rattle.theory.specs.FirstModels.{model_of, first_model};
ghost use Rattle.theory.specs.Sets.{fits, row_declared};
ghost use Rattle.theory.specs.Renamings.{renamed_row};
ghost use Rattle.row.specs.Rows.{row_of};
ghost use Rattle.row.specs.Checks.{rows_checked};
ghost use Rattle.mask.specs.Entries.{rows_of_entries};
ghost use Rattle.search.specs.Answers.{shown, searched};
ghost use Rattle.search.specs.Renamings.{new_name};
ghost use Rattle.search.specs.Placings.{Placing};

use crate::answers::Found;
use crate::asked::terms_asked;
use crate::entries::gather;
use crate::finders::{Finder, GROUPS};
use crate::models::model;
use crate::placings::Placed;
use crate::renamings::{PLAIN, ROOM, back_from, by_weight, is_renaming};
use outcome::Refusal;
use question::Question;
use row::check_rows;

// Entries of declared rows: at first no term is placed, and the memo says nothing.
fn search_entries(entries: &[u64], terms: usize, sets: u8) -> Option<Found>
    requires few { (terms ≤ max_terms) × (sets ≤ max_sets) }
    requires declared { T (all_rows (row_declared terms sets) (rows_of_entries entries.now)) }
    ensures { result ≡ shown (first_model fits terms (2 ^ sets) (rows_of_entries entries.now)) }
{
    let mut finder = Finder {
        entries,
        terms,
        sets,
        asked: terms_asked(entries),
        memo: [0; GROUPS],
    };
    finder.place(Placed::none())
}

// Rows that the check accepts, over so many terms and sets.
#[derive(Clone, Copy)]
struct AcceptedRows<'a> {
    rows: &'a [u32],
    terms: usize,
    sets: u8,
    ghost accepted: { rows_checked terms sets rows.now ≡ Ok tt },
}

impl AcceptedRows<'_> {
    // Their first model with new numbers for the sets. The table is room for their entries.
    fn search_renamed(&self, to: [u8; ROOM], table: &mut [u64; Question::MAX_ROWS]) -> Option<Found>
        requires { (x : ℕ) → x < self.now.sets → new_name to x < self.now.sets }
        ensures { result ≡ shown (first_model fits self.now.terms (2 ^ self.now.sets) (map (renamed_row (new_name to)) (map row_of self.now.rows.now))) }
    {
        let count = gather(self.rows, to, table);
        search_entries(&table[..count], self.terms, self.sets)
    }

    // The first model, from that of the renamed rows: it has the same arrangement, and its masks are the smallest under the plain numbers.
    fn model_again(
        &self,
        arrangement: [u8; Question::MAX_TERMS],
        table: &mut [u64; Question::MAX_ROWS],
    ) -> Option<Found>
        requires { Placing arrangement self.now.terms (classes (take self.now.terms arrangement)) }
        ensures { result ≡ shown (model_of fits (2 ^ self.now.sets) (map row_of self.now.rows.now) (take self.now.terms arrangement)) }
    {
        let count = gather(self.rows, PLAIN, table);
        let placed = Placed::all(arrangement, self.terms);
        model(&table[..count], placed, self.sets)
    }

    // The first model depends only on which rows there are, so they are searched as entries in another order;
    // and its arrangement doesn't depend on the numbers of the sets, so they are searched with those under which masks are found soon.
    fn search(&self) -> Option<Found>
        ensures { result ≡ shown (first_model fits self.now.terms (2 ^ self.now.sets) (map row_of self.now.rows.now)) }
    {
        let mut table: [u64; Question::MAX_ROWS] = [0; Question::MAX_ROWS];
        let to = by_weight(self.rows, self.sets);
        let back = back_from(to, self.sets);
        if !is_renaming(to, back, self.sets) {
            return self.search_renamed(PLAIN, &mut table);
        }
        let found = self.search_renamed(to, &mut table)?;
        self.model_again(found.arrangement, &mut table)
    }
}

// The first model of the rows over so many terms and sets, or none, which means impossible; or why the rows are refused.
#[tactic(auto, unfolding(crate::specs::Answers::searched))]
pub fn search(rows: &[u32], terms: usize, sets: u8) -> Result<Option<Found>, Refusal>
    ensures { result ≡ searched terms sets rows.now }
{
    check_rows(rows, terms, sets)?;
    let accepted = AcceptedRows { rows, terms, sets };
    Ok(accepted.search())
}
