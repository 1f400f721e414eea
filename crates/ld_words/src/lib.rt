//! The words of JSON-LD: its keywords (JSON-LD 1.1, section 1.7) and the codes of its errors (JSON-LD
//! 1.1 API, section 9.6), each spelled once.
//!
//! The spellings stand in one table, `specs/Spellings.antt`. `text` gives the spelling of a keyword or
//! of a code, `keyword` finds the keyword of a spelling, and no two words of a kind are spelled alike,
//! so the two are inverse. `is_keyword_form` tells a text that looks like a keyword. Nothing here
//! takes memory.
#![tactic(auto)]

mod code_table;
mod keyword_table;
mod laws;

pub use code_table::Code;
pub use keyword_table::{LdKeyword, is_keyword_form, keyword};
pub use laws::{
    code_spellings_differ, keyword_of_is_exact, keyword_spellings_differ, keywords_have_their_form,
};
