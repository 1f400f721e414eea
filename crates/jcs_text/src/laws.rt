//! Laws of the definitions: each is the contract of a function that does nothing.

ghost use Rattle.std.specs.Prelude.{◌≡◌, ◌<◌, ◌∷◌, [], ◌++◌, ◌^◌, ◌-◌, ℕ, List, map, pos, negsuc, codes, true, false, Some, All, IsUtf8, IsAscii, IsPermutation, IsSortedByKey};
ghost use Rattle.std.specs.Char.Utf16.{utf16_chars};
ghost use Rattle.std.specs.Cmp.Lexicographic.{slice_cmp};
ghost use Rattle.std.specs.List.Sorted.{IsStableByKey};
ghost use Rattle.std.specs.Ordering.{nat_cmp};
ghost use Rattle.std.specs.Str.{chars};
ghost use Rattle.base_types.specs.Order.{is_upto};
ghost use Rattle.json_tree.specs.declared.tree.Member.{Member};
ghost use Rattle.json_tree.specs.declared.tree.Tree.{Tree};
ghost use Rattle.json_tree.specs.declared.tree.Tree.TheVariants as v;
ghost use Rattle.jcs_text.specs.Canonical.{code_units, is_upto_by_units, in_name_order, string_text, canonical_json};
ghost use Rattle.jcs_text.specs.Examples.{carriage_return, high_control, o_diaeresis, euro_sign, dalet, face, rfc_names, rfc_members, rfc_string, rfc_literals, nested_members, list_with_gaps, repeated_name};

/// The order of an object's members is what a stable sort by the code units of their names leaves:
/// the same members, each name upto the next, and members of one name as they stood.
pub fn name_order_is_a_stable_sort()
    ensures moves { (ms : List (Member Tree))
        → IsPermutation ms (in_name_order (λ (m : Member Tree). m.key) ms) }
    ensures sorted { (ms : List (Member Tree))
        → IsSortedByKey (λ (m : Member Tree). code_units m.key) (slice_cmp nat_cmp)
        (in_name_order (λ (m : Member Tree). m.key) ms) }
    ensures stable { (ms : List (Member Tree))
        → IsStableByKey (λ (m : Member Tree). code_units m.key) (slice_cmp nat_cmp) ms
        (in_name_order (λ (m : Member Tree). m.key) ms) }
{}

/// The code units of a text are numbers of 16 bits that are read, pair by pair, as its characters. So
/// texts of the same code units are one text. The Unicode Standard, 3.9.
pub fn code_units_spell_the_characters()
    ensures below { (text : List ℕ) → IsUtf8 text → All (λ u. u < 2 ^ 16) (code_units text) }
    ensures read { (text : List ℕ) → IsUtf8 text
        → utf16_chars (code_units text) ≡ map Some (chars text) }
    ensures one { (x y : List ℕ) → IsUtf8 x → IsUtf8 y → code_units x ≡ code_units y → x ≡ y }
{}

/// The code units of ASCII are its bytes, so names of ASCII stand in code-point order.
pub fn ascii_names_stand_in_code_point_order()
    ensures { (x y : List ℕ) → IsAscii x → IsAscii y → is_upto_by_units x y ≡ is_upto x y }
{}

/// Worked rows: code units of one unit, and of two. RFC 8785, 3.2.3; the Unicode Standard, 3.9.
pub fn worked_code_units()
    ensures letter { code_units (codes "aA") ≡ 97 ∷ 65 ∷ [] }
    ensures two_bytes { code_units o_diaeresis ≡ 246 ∷ [] }
    ensures three_bytes { code_units euro_sign ≡ 8364 ∷ [] }
    ensures last_unit { code_units (239 ∷ 191 ∷ 191 ∷ []) ≡ 65535 ∷ [] }
    ensures first_pair { code_units (240 ∷ 144 ∷ 128 ∷ 128 ∷ []) ≡ 55296 ∷ 56320 ∷ [] }
    ensures pair { code_units face ≡ 55357 ∷ 56832 ∷ [] }
    ensures last_pair { code_units (244 ∷ 143 ∷ 191 ∷ 191 ∷ []) ≡ 56319 ∷ 57343 ∷ [] }
{}

/// Worked rows: the names of the example of RFC 8785, 3.2.3, in the order that it gives them. The
/// last two stand the other way round in code-point order.
pub fn worked_name_order()
    ensures names { in_name_order (λ (name : List ℕ). name) rfc_names
        ≡ carriage_return ∷ codes "1" ∷ high_control ∷ o_diaeresis ∷ euro_sign ∷ face ∷ dalet
        ∷ [] }
    ensures units { is_upto_by_units face dalet ≡ true }
    ensures units_back { is_upto_by_units dalet face ≡ false }
    ensures code_points { is_upto face dalet ≡ false }
    ensures shorter { is_upto_by_units (codes "a") (codes "ab") ≡ true }
    ensures longer { is_upto_by_units (codes "ab") (codes "a") ≡ false }
    ensures empty { is_upto_by_units [] (codes "a") ≡ true }
{}

/// Worked rows: the text of the example of RFC 8785, 3.2.2, and what that section says of each
/// control, of quotes and backslashes, and of other characters.
pub fn worked_strings()
    ensures example { string_text rfc_string
        ≡ codes "\"" ++ euro_sign ++ codes "$\\u000f\\nA'B\\\"\\\\\\\\\\\"/\"" }
    ensures two_letters { string_text (8 ∷ 9 ∷ 10 ∷ 12 ∷ 13 ∷ [])
        ≡ codes "\"\\b\\t\\n\\f\\r\"" }
    ensures marks { string_text (codes "\"\\/") ≡ codes "\"\\\"\\\\/\"" }
    ensures low_controls { string_text (0 ∷ 7 ∷ 11 ∷ 14 ∷ [])
        ≡ codes "\"\\u0000\\u0007\\u000b\\u000e\"" }
    ensures high_controls { string_text (16 ∷ 26 ∷ 31 ∷ []) ≡ codes "\"\\u0010\\u001a\\u001f\"" }
    ensures others { string_text (32 ∷ 127 ∷ high_control)
        ≡ codes "\"" ++ 32 ∷ 127 ∷ high_control ++ codes "\"" }
{}

/// Worked rows: whole numbers, those of 53 bits among them as RFC 8785, appendix B, has them. Greater
/// ones keep their digits.
pub fn worked_numbers()
    ensures none { canonical_json (v.Whole (pos 0)) ≡ codes "0" }
    ensures greatest { canonical_json (v.Whole (pos (2 ^ 53))) ≡ codes "9007199254740992" }
    ensures least { canonical_json (v.Whole (negsuc (2 ^ 53 - 1))) ≡ codes "-9007199254740992" }
    ensures whole { canonical_json (v.Whole (pos (2 ^ 64 - 1))) ≡ codes "18446744073709551615" }
{}

/// Worked rows: lists and objects, the literals and members of the examples of RFC 8785 among them.
pub fn worked_values()
    ensures literals { canonical_json rfc_literals ≡ codes "[null,true,false]" }
    ensures empty { canonical_json (v.List []) ≡ codes "[]" }
    ensures members { canonical_json rfc_members
        ≡ codes "{\"\\r\":\"Carriage Return\",\"1\":\"One\",\"" ++ face
        ++ codes "\":\"Emoji: Grinning Face\",\"" ++ dalet
        ++ codes "\":\"Hebrew Letter Dalet With Dagesh\"}" }
    ensures nested { canonical_json nested_members
        ≡ codes "{\"a\":-1,\"b\":{\"c\":{},\"d\":[]}}" }
    ensures gaps { canonical_json list_with_gaps ≡ codes "[\"\",10]" }
    ensures repeated { canonical_json repeated_name ≡ codes "{\"a\":false,\"b\":true,\"b\":null}" }
{}
