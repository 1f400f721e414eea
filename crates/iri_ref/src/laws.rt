//! Laws of the definitions, and rows of the standard that they compute.
ghost use Rattle.std.specs.Prelude.{ℕ, List, ◌≡◌, ◌↔◌, ◌++◌, [], true, codes, filter};
ghost use Rattle.std.specs.List.{range_with_len};
ghost use Rattle.iri_ref.specs.Characters.{is_forbidden, is_letter, is_scheme_character};
ghost use Rattle.iri_ref.specs.Buffers.{Removes};
ghost use Rattle.iri_ref.specs.Components.{IsAbsolute, is_absolute, components, components_at, recompose, spans};
ghost use Rattle.iri_ref.specs.Resolution.{remove_dot_segments, resolution};

/// The components of a text make the text again.
pub fn recompose_gives_back()
    ensures { (text : List ℕ) → recompose (components text) ≡ text }
{}

/// The spans of a text's components cut exactly these components out of it.
pub fn spans_cut_the_components()
    ensures { (text : List ℕ) → components_at text (spans (components text)) ≡ components text }
{}

/// `is_absolute` is the test of `IsAbsolute`.
pub fn the_test_of_absolute_iris_is_exact()
    ensures { (text : List ℕ) → (is_absolute text ≡ true) ↔ IsAbsolute text }
{}

/// The removal of dot segments by segments gives what the loop over an input and an output buffer
/// gives, which the standard writes down. RFC 3986, section 5.2.4.
pub fn segments_agree_with_buffers()
    ensures { (path : List ℕ) → Removes path [] (remove_dot_segments path) }
{}

/// The ASCII characters that no IRI holds, and those of a scheme. RDF 1.1 N-Quads, 4, IRIREF; RFC
/// 3986, appendix A.
pub fn ascii_characters()
    ensures forbidden { filter is_forbidden (range_with_len 0 128)
        ≡ range_with_len 0 33 ++ codes "\"<>\\^`{|}" }
    ensures letters { filter is_letter (range_with_len 0 128)
        ≡ codes "ABCDEFGHIJKLMNOPQRSTUVWXYZabcdefghijklmnopqrstuvwxyz" }
    ensures scheme { filter is_scheme_character (range_with_len 0 128)
        ≡ codes "+-.0123456789ABCDEFGHIJKLMNOPQRSTUVWXYZabcdefghijklmnopqrstuvwxyz" }
{}

/// What some references mean. RFC 3986, sections 5.4 and 5.2.3.
pub fn worked_resolutions()
    ensures up { resolution (codes "http://a/b/c/d;p?q") (codes "../g") ≡ codes "http://a/b/g" }
    ensures empty { resolution (codes "http://a/b?q#f") (codes "") ≡ codes "http://a/b?q" }
    ensures rooted { resolution (codes "http://a") (codes "g") ≡ codes "http://a/g" }
    ensures path_alone { resolution (codes "foo:") (codes "g") ≡ codes "foo:g" }
{}
