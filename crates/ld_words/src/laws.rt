//! Laws of the table of spellings.
ghost use Rattle.std.specs.Prelude.{◌≡◌, ◌↔◌, ℕ, List, Some, true};
ghost use Rattle.ld_words.specs.Spellings.{code_text, has_keyword_form, keyword_of, keyword_text};
ghost use Rattle.ld_words.specs.declared.code_table.Code.{Code};
ghost use Rattle.ld_words.specs.declared.keyword_table.LdKeyword.{LdKeyword};

/// No two keywords are spelled alike.
pub fn keyword_spellings_differ()
    ensures { (j k : LdKeyword) → keyword_text j ≡ keyword_text k → j ≡ k }
{}

/// `keyword_of` is the table of spellings.
pub fn keyword_of_is_exact()
    ensures { (text : List ℕ) (k : LdKeyword)
        → (keyword_of text ≡ Some k) ↔ (text ≡ keyword_text k) }
{}

/// Each keyword has the form of one.
pub fn keywords_have_their_form()
    ensures { (k : LdKeyword) → has_keyword_form (keyword_text k) ≡ true }
{}

/// No two codes are spelled alike.
pub fn code_spellings_differ()
    ensures { (j k : Code) → code_text j ≡ code_text k → j ≡ k }
{}
