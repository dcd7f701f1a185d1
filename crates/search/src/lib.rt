// The search: rows that are handed in are checked, and then their first model is found, or that there is none.
//
// How it goes, rule by rule, each with the law that shows that it leaves out nothing that has a solution. Below, p is a beginning
// of an arrangement, the class numbers of the first terms; G₀ .. Gₙ₋₁ are groups of terms, at first those of the n classes in p;
// mask(G) is the smallest mask that meets the rows of the terms in G, if there is one; A has the asked terms, those that rows of
// other terms ask for.
//
// 1. Renaming: the sets get other numbers π, under which masks are found soon. An arrangement has a model of π(rows) exactly if
//    it has one of the rows, so the first is the same: none_renamed, some_renamed (theory/proofs/RenamingLaws.antt).
// 2. Gathering: rows with one test are one entry, and the entries stand in another order. They say the same rows, so they have
//    the same first model: first_model_same (theory/proofs/SameRowLaws.antt).
// 3. Placing: found(p) is the first of found(p, 0), .., found(p, n); the next term goes into each class and into a new one:
//    behind_step (cut/proofs/BehindLaws.antt).
// 4. Cutting: found(p) = none where the terms still to be placed don't fit into G₀ .. Gₙ₋₁ and new groups:
//    none_found (cut/proofs/StandingLaws.antt). They are tried in this order:
//    a. A term t of A makes one of Gₖ ∪ {t}, each k, or a new group {t}: tried_stuck, tried_new (cut/proofs/TriedLaws.antt).
//    b. Of these G is left out if mask(G ∪ B) = none for each B of terms of A still ahead, for then G is a part of no class:
//       none_part (cut/proofs/PartLaws.antt), neither, tried_lacks, tried_alone (cut/proofs/TriedLaws.antt).
//    c. All of A is in groups: nothing fits if mask(Gₖ) = none for some k: part_cut (cut/proofs/PartLaws.antt).
//    d. A term t of the rest is passed over if it has mask({t}), for then it is in nobody's way; else it makes one of Gₖ ∪ {t},
//       each k with a mask: tried_stuck, tried_lacks, tried_alone (cut/proofs/TriedLaws.antt).
// 5. The end: where all terms are placed, the class k has mask(Gₖ): mask_whole (cut/proofs/WholeLaws.antt). These masks are
//    found again under the plain numbers of the sets.
//
// Whether mask(G) is there is asked once for each G, and kept in a memo. That what is not cut has a model isn't proved, and nothing
// depends on it: another rule can come in at 4 with a law that where it says no, nothing is found.
#![tactic(auto)]

mod answers;
mod asked;
mod entries;
mod finders;
mod fittings;
mod groups;
mod memos;
mod models;
mod placings;
mod renamings;
mod rest_fittings;
mod searches;

pub use answers::Found;
pub use searches::search;
