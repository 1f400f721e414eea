//! The parts of a line as they are written, from left to right (RDF 1.1 N-Quads, 4).

ghost use Rattle.std.specs.Prelude.{◌≡◌, ◌<◌, ◌≤◌, length, false, not, option_map, position, IsCharBoundary};
ghost use Rattle.std.specs.List.{prefix_len};
ghost use Rattle.std.specs.Option.{option_copied};
ghost use Rattle.nquads.specs.Terms.{is_label_character};
ghost use Rattle.nquads.specs.Internal.Parsing.{
  behind_object,
  behind_subject,
  IsQuoteAt,
  blank_in,
  closing_in,
  cut_at,
  cut_iri,
  cut_quoted,
  datatype_in,
  end_in,
  graph_in,
  iri_in,
  is_comment,
  is_end,
  is_language_character,
  label_len,
  language_in,
  language_len,
  literal_in,
  part_in,
  parts_in,
  past,
  past_gap,
  past_gaps,
  past_one_gap,
  seen,
  seen_end_two,
  seen_graph_two,
  seen_line,
  seen_part_two,
  seen_two,
  without_dot,
};

use crate::grammar::{is_label_byte, is_language_byte};

/// What follows a literal's closing quote: nothing, a language, or a datatype's IRI between its
/// brackets.
#[derive(Clone, Copy, Debug)]
pub(crate) enum Ending<'a> {
    Plain,
    Language(&'a str),
    Datatype(&'a str),
}

/// A term as it is written: an IRI between its brackets, a literal between its quotes and what
/// follows them, or a label.
#[derive(Clone, Copy, Debug)]
pub(crate) enum Part<'a> {
    Iri(&'a str),
    Literal(&'a str, Ending<'a>),
    Blank(&'a str),
}

/// The parts of a statement as they are written.
#[derive(Clone, Copy, Debug)]
pub(crate) struct LineParts<'a> {
    pub(crate) subject: Part<'a>,
    pub(crate) predicate: &'a str,
    pub(crate) object: Part<'a>,
    pub(crate) graph: Option<Part<'a>>,
}

/// What follows the mark, where the text begins with it.
pub(crate) fn past(text: &str, mark: char) -> Option<&str>
    requires { mark < 128 }
    ensures { option_copied result ≡ past mark text.now }
{
    text.strip_prefix(mark)
}

/// What follows one space or tab.
fn past_one_gap(text: &str) -> Option<&str>
    ensures { option_copied result ≡ past_one_gap text.now }
{
    if let Some(rest) = past(text, ' ') {
        return Some(rest);
    }
    past(text, '\t')
}

/// What follows spaces and tabs.
fn past_gaps(text: &str) -> &str
    ensures { result.now ≡ past_gaps text.now }
{
    let mut rest = text;
    while let Some(after) = past_one_gap(rest) {
        rest = after;
    }
    rest
}

/// What follows at least one space or tab.
fn past_gap(text: &str) -> Option<&str>
    ensures { option_copied result ≡ past_gap text.now }
{
    let rest = past_one_gap(text)?;
    Some(past_gaps(rest))
}

/// An IRI's text between its brackets, and what follows them.
fn cut_iri(text: &str) -> Option<(&str, &str)>
    ensures { option_map seen_two result ≡ cut_iri text.now }
{
    let rest = past(text, '<')?;
    rest.split_once('>')
}

/// The place of the first quote that no backslash escapes.
fn quote_at(text: &[u8]) -> Option<usize>
    ensures { IsQuoteAt text.now result }
{
    let mut escaped = false;
    for at in 0..text.len() {
        let byte = text[at];
        if escaped {
            escaped = false;
        } else if byte == b'"' {
            return Some(at);
        } else {
            escaped = byte == b'\\';
        }
    }
    None
}

/// A literal's text between its quotes, of which the first is left out, and what follows them.
fn cut_quoted(text: &str) -> Option<(&str, &str)>
    ensures { option_map seen_two result ≡ cut_quoted false text.now }
{
    let end = quote_at(text.as_bytes())?;
    let (inner, _) = text.split_at(end);
    let (_, rest) = text.split_at(end + 1);
    Some((inner, rest))
}

/// The place of the first byte that is none of a language's.
fn language_end(bytes: &[u8]) -> Option<usize>
    ensures { result ≡ position (λ c. not (is_language_character c)) bytes.now }
{
    bytes.iter().position(|byte| !is_language_byte(*byte))
}

/// The number of bytes of the language with which the text begins.
fn language_len(text: &str) -> usize
    ensures len { result ≡ language_len text.now }
    ensures boundary { IsCharBoundary text.now result }
{
    language_end(text.as_bytes()).unwrap_or(text.len())
}

/// The place of the first byte that is none of a label's.
fn label_end(bytes: &[u8]) -> Option<usize>
    ensures { result ≡ position (λ c. not (is_label_character c)) bytes.now }
{
    bytes.iter().position(|byte| !is_label_byte(*byte))
}

/// The place without a dot that stands before it.
fn without_dot(bytes: &[u8], end: usize) -> usize
    requires { end ≤ length bytes.now }
    ensures { result ≡ without_dot bytes.now end }
{
    if end == 0 {
        return 0;
    }
    if bytes[end - 1] == b'.' {
        return end - 1;
    }
    end
}

/// The number of bytes of the label with which the text begins: all of its characters, but for a
/// last dot, which ends the statement.
fn label_len(text: &str) -> usize
    ensures len { result ≡ label_len text.now }
    ensures boundary { IsCharBoundary text.now result }
{
    let bytes = text.as_bytes();
    let end = label_end(bytes).unwrap_or(bytes.len());
    without_dot(bytes, end)
}

/// A datatype behind its first `^`, and what follows it.
fn datatype_in(text: &str) -> Option<(Ending<'_>, &str)>
    ensures { option_map seen_end_two result ≡ datatype_in text.now }
{
    let (inner, rest) = cut_iri(past(text, '^')?)?;
    Some((Ending::Datatype(inner), rest))
}

/// What follows the closing quote as a part of the literal, and what follows that.
fn end_in(text: &str) -> Option<(Ending<'_>, &str)>
    ensures { option_map seen_end_two result ≡ end_in text.now }
{
    if let Some(rest) = past(text, '@') {
        let (tag, after) = rest.split_at(language_len(rest));
        return Some((Ending::Language(tag), after));
    }
    if let Some(rest) = past(text, '^') {
        return datatype_in(rest);
    }
    Some((Ending::Plain, text))
}

/// A literal behind its first quote, and what follows it.
fn literal_in(text: &str) -> Option<(Part<'_>, &str)>
    ensures { option_map seen_part_two result ≡ literal_in text.now }
{
    let (inner, rest) = cut_quoted(text)?;
    let (end, after) = end_in(rest)?;
    Some((Part::Literal(inner, end), after))
}

/// A blank node behind its `_`, and what follows it.
fn blank_in(text: &str) -> Option<(Part<'_>, &str)>
    ensures { option_map seen_part_two result ≡ blank_in text.now }
{
    let rest = past(text, ':')?;
    let (label, after) = rest.split_at(label_len(rest));
    Some((Part::Blank(label), after))
}

/// The term with which the text begins, and what follows it.
#[tactic(auto, unfolding(crate::specs::Internal::Parsing::part_in))]
fn part_in(text: &str) -> Option<(Part<'_>, &str)>
    ensures { option_map seen_part_two result ≡ part_in text.now }
{
    if let Some(rest) = past(text, '"') {
        return literal_in(rest);
    }
    if let Some(rest) = past(text, '_') {
        return blank_in(rest);
    }
    let (inner, rest) = cut_iri(text)?;
    Some((Part::Iri(inner), rest))
}

/// A graph behind its gap, and what follows the dot.
fn graph_in(text: &str) -> Option<(Option<Part<'_>>, &str)>
    ensures { option_map seen_graph_two result ≡ graph_in text.now }
{
    let (part, rest) = part_in(text)?;
    let end = past(past_gaps(rest), '.')?;
    Some((Some(part), end))
}

/// A graph or nothing, and what follows the dot.
#[tactic(auto, unfolding(crate::specs::Internal::Parsing::closing_in))]
fn closing_in(text: &str) -> Option<(Option<Part<'_>>, &str)>
    ensures { option_map seen_graph_two result ≡ closing_in text.now }
{
    if let Some(end) = past(past_gaps(text), '.') {
        return Some((None, end));
    }
    graph_in(past_gap(text)?)
}

/// Whether nothing but spaces and tabs is left, and perhaps a comment. RDF 1.1 N-Quads, 3.4.
pub(crate) fn is_end(text: &str) -> bool
    ensures { result ≡ is_end text.now }
{
    let rest = past_gaps(text);
    rest.is_empty() || rest.as_bytes()[0] == b'#'
}

/// The parts of the line behind its object.
fn behind_object<'a>(
    subject: Part<'a>,
    predicate: &'a str,
    object: Part<'a>,
    text: &'a str,
) -> Option<LineParts<'a>>
    ensures { option_map seen_line result
        ≡ behind_object (seen subject.entry) predicate.now (seen object.entry) text.now }
{
    let (graph, end) = closing_in(text)?;
    if !is_end(end) {
        return None;
    }
    Some(LineParts {
        subject,
        predicate,
        object,
        graph,
    })
}

/// The parts of the line behind its subject.
fn behind_subject<'a>(subject: Part<'a>, text: &'a str) -> Option<LineParts<'a>>
    ensures { option_map seen_line result ≡ behind_subject (seen subject.entry) text.now }
{
    let (predicate, rest) = cut_iri(past_gap(text)?)?;
    let (object, after) = part_in(past_gap(rest)?)?;
    behind_object(subject, predicate, object, after)
}

/// The parts of a line that is a statement: subject, predicate, object and perhaps a graph, apart by
/// spaces and tabs, then a dot.
#[tactic(auto, unfolding(crate::specs::Internal::Parsing::parts_in))]
pub(crate) fn parts_in(line: &str) -> Option<LineParts<'_>>
    ensures { option_map seen_line result ≡ parts_in line.now }
{
    let (subject, rest) = part_in(past_gaps(line))?;
    behind_subject(subject, rest)
}
