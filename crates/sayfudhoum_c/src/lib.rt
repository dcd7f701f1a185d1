// The library for C, as the archive libsayfudhoum.a: the exports that include/sayfudhoum.h declares.
#![tactic(auto)]

mod exports;

pub use exports::{
    sayfudhoum_answer, sayfudhoum_clash, sayfudhoum_clauses, sayfudhoum_judge, sayfudhoum_solved,
    sayfudhoum_verdict,
};
