//! Pointers of RFC 6901, section 5, and parts of documents worked by hand.
use json_tree::{Tree, print, read};
use pointer_select::{Pointer, PointerFault, SelectFault, select};
use std::alloc::Global;
use std::test::Fail;

/// The example document of RFC 6901, section 5.
const RFC: &str =
    "{\"foo\":[\"bar\",\"baz\"],\"\":0,\"a/b\":1,\"c%d\":2,\"e^f\":3,\"g|h\":4,\"i\\\\j\":5,\"k\\\"l\":6,\" \":7,\"m~n\":8}";

/// Its pointers, each with the part that it selects.
const EXAMPLES: [(&str, &str); 12] = [
    (
        "",
        "{\"\":0,\" \":7,\"a/b\":1,\"c%d\":2,\"e^f\":3,\"foo\":[\"bar\",\"baz\"],\"g|h\":4,\"i\\\\j\":5,\"k\\\"l\":6,\"m~n\":8}",
    ),
    ("/foo", "{\"foo\":[\"bar\",\"baz\"]}"),
    ("/foo/0", "{\"foo\":[\"bar\"]}"),
    ("/", "{\"\":0}"),
    ("/a~1b", "{\"a/b\":1}"),
    ("/c%d", "{\"c%d\":2}"),
    ("/e^f", "{\"e^f\":3}"),
    ("/g|h", "{\"g|h\":4}"),
    ("/i\\j", "{\"i\\\\j\":5}"),
    ("/k\"l", "{\"k\\\"l\":6}"),
    ("/ ", "{\" \":7}"),
    ("/m~0n", "{\"m~n\":8}"),
];

/// A document with a list, a member whose name has a `/`, and an id.
const LISTS: &str =
    "{\"@context\":\"https://ex.org/l\",\"@id\":\"urn:a\",\"a/b\":\"s\",\"list\":[\"x\",\"y\"],\"x\":[\"m\",\"n\"]}";

/// Objects on the way and beside it, with kept names.
const NAMES: &str =
    "{\"@context\":{\"t\":1},\"a\":{\"b\":{\"@id\":\"urn:b\",\"@type\":[\"U\"],\"c\":1,\"d\":{\"id\":\"urn:d\"}},\"e\":{\"f\":3,\"id\":\"urn:e\"},\"id\":\"urn:a\",\"type\":\"T\"},\"g\":{\"@context\":\"h\"},\"type\":{\"v\":[1]}}";

/// Names that look like escapes and like indexes.
const ODD: &str = "{\"/\":1,\"0\":{\"0\":[[2,3]]},\"01\":4,\"~1\":5}";

/// Documents and pointers, with the part that they select or the first that is missing.
const PARTS: [(&str, &[&str], &str); 30] = [
    (LISTS, &[], "none"),
    (LISTS, &[""], LISTS),
    (
        LISTS,
        &["/a~1b"],
        "{\"@context\":\"https://ex.org/l\",\"@id\":\"urn:a\",\"a/b\":\"s\"}",
    ),
    (
        LISTS,
        &["/x/1", "/x/1"],
        "{\"@context\":\"https://ex.org/l\",\"@id\":\"urn:a\",\"x\":[\"n\"]}",
    ),
    (
        LISTS,
        &["/list/0"],
        "{\"@context\":\"https://ex.org/l\",\"@id\":\"urn:a\",\"list\":[\"x\"]}",
    ),
    (LISTS, &["/x/01"], "Missing 0"),
    (LISTS, &["/x/~2"], "BadPointer 3"),
    // One pointer that is a prefix of another, in either order; several in one list.
    (
        LISTS,
        &["/x", "/x/0"],
        "{\"@context\":\"https://ex.org/l\",\"@id\":\"urn:a\",\"x\":[\"m\",\"n\"]}",
    ),
    (
        LISTS,
        &["/x/0", "/x"],
        "{\"@context\":\"https://ex.org/l\",\"@id\":\"urn:a\",\"x\":[\"m\",\"n\"]}",
    ),
    (
        LISTS,
        &["/x/1", "/list/1", "/x/0"],
        "{\"@context\":\"https://ex.org/l\",\"@id\":\"urn:a\",\"list\":[\"y\"],\"x\":[\"m\",\"n\"]}",
    ),
    (LISTS, &["/x/0", ""], LISTS),
    // What names no place, and the first of them.
    (LISTS, &["/x/2"], "Missing 0"),
    (LISTS, &["/x/-"], "Missing 0"),
    (LISTS, &["/x/+1"], "Missing 0"),
    (LISTS, &["/x/"], "Missing 0"),
    (LISTS, &["/x/1/"], "Missing 0"),
    (LISTS, &["/x/18446744073709551616"], "Missing 0"),
    (LISTS, &["/x/0", "/a", "/z"], "Missing 1"),
    (LISTS, &["/a~1b/0"], "Missing 0"),
    // A kept name stays on the way and whole, and nowhere else.
    (
        NAMES,
        &["/a/b/c"],
        "{\"@context\":{\"t\":1},\"a\":{\"b\":{\"@id\":\"urn:b\",\"@type\":[\"U\"],\"c\":1},\"id\":\"urn:a\",\"type\":\"T\"},\"type\":{\"v\":[1]}}",
    ),
    (
        NAMES,
        &["/a/e/f"],
        "{\"@context\":{\"t\":1},\"a\":{\"e\":{\"f\":3,\"id\":\"urn:e\"},\"id\":\"urn:a\",\"type\":\"T\"},\"type\":{\"v\":[1]}}",
    ),
    (
        NAMES,
        &["/g/@context", "/type/v/0"],
        "{\"@context\":{\"t\":1},\"g\":{\"@context\":\"h\"},\"type\":{\"v\":[1]}}",
    ),
    (
        NAMES,
        &["/a/b"],
        "{\"@context\":{\"t\":1},\"a\":{\"b\":{\"@id\":\"urn:b\",\"@type\":[\"U\"],\"c\":1,\"d\":{\"id\":\"urn:d\"}},\"id\":\"urn:a\",\"type\":\"T\"},\"type\":{\"v\":[1]}}",
    ),
    // Escapes, and numbers as names.
    (ODD, &["/~01"], "{\"~1\":5}"),
    (ODD, &["/~1"], "{\"/\":1}"),
    (ODD, &["/01"], "{\"01\":4}"),
    (ODD, &["/0/0/0/1"], "{\"0\":{\"0\":[[3]]}}"),
    (ODD, &["/0/0/0", "/0/0/0/0"], "{\"0\":{\"0\":[[2,3]]}}"),
    // Values that contain nothing.
    ("7", &[""], "7"),
    ("7", &["/"], "Missing 0"),
];

/// The pointers, or the first text that is none with its byte.
fn pointers_of(alloc: Global, texts: &[&str]) -> Result<Result<Vec<Pointer>, u64>, Fail> {
    let mut pointers = Vec::new(alloc);
    for text in texts {
        match Pointer::read(alloc, text) {
            Ok(pointer) => pointers.push(pointer)?,
            Err(PointerFault::BadPointer(at)) => return Ok(Err(at)),
            Err(PointerFault::Memory) => return Ok(Err(u64::MAX)),
        }
    }
    Ok(Ok(pointers))
}

/// What is answered in place of a part.
fn fault_text(alloc: Global, fault: SelectFault) -> Result<Vec<u8>, Fail> {
    match fault {
        SelectFault::Missing(index) => Ok(format!(in alloc; "Missing {index}")?.into_bytes()),
        SelectFault::Memory => Ok(String::from_str(alloc, "no memory")?.into_bytes()),
    }
}

/// The compact text of the part that the pointers select, or what is answered in its place.
fn selected(alloc: Global, document: &str, pointers: &[Pointer]) -> Result<Vec<u8>, Fail> {
    let tree = read(alloc, document.as_bytes())?;
    match select(alloc, &tree, pointers) {
        Ok(None) => Ok(String::from_str(alloc, "none")?.into_bytes()),
        Ok(Some(part)) => Ok(print(alloc, &part)?),
        Err(fault) => fault_text(alloc, fault),
    }
}

/// What these texts select of the document, or the first byte at which one is no pointer.
fn outcome(alloc: Global, document: &str, texts: &[&str]) -> Result<Vec<u8>, Fail> {
    match pointers_of(alloc, texts)? {
        Ok(pointers) => selected(alloc, document, pointers.as_slice()),
        Err(at) => Ok(format!(in alloc; "BadPointer {at}")?.into_bytes()),
    }
}

/// The first of the examples that selects another part, if there is one.
fn first_wrong_example(alloc: Global) -> Result<Option<&'static str>, Fail> {
    for (pointer, expected) in &EXAMPLES {
        if outcome(alloc, RFC, &[*pointer])?.as_slice() != expected.as_bytes() {
            return Ok(Some(pointer));
        }
    }
    Ok(None)
}

/// The first of the rows of parts that has another outcome, if there is one.
fn first_wrong_part(alloc: Global) -> Result<Option<usize>, Fail> {
    for (number, (document, pointers, expected)) in PARTS.iter().enumerate() {
        if outcome(alloc, document, pointers)?.as_slice() != expected.as_bytes() {
            return Ok(Some(number));
        }
    }
    Ok(None)
}

#[test]
fn pointers_select_their_parts(rt: HostRuntime) -> Result<(), Fail> {
    assert_eq!(rt; first_wrong_example(rt.alloc())?, None);
    assert_eq!(rt; first_wrong_part(rt.alloc())?, None);
    Ok(())
}

/// Texts with their tokens after a `|` each, or with the byte at which they leave the grammar.
const TEXTS: [(&str, &str); 14] = [
    ("", ""),
    ("/", "|"),
    ("//", "||"),
    ("/a~1b/~01/\u{e9}", "|a/b|~1|\u{e9}"),
    ("/~0~1~0", "|~/~"),
    ("/ |", "| |"),
    ("a", "0"),
    ("~0", "0"),
    ("a~2", "0"),
    ("/~", "1"),
    ("/~2~3", "1"),
    ("/~0~/", "3"),
    ("/\u{e9}/~", "4"),
    ("/~~0", "1"),
];

/// The tokens of a pointer, after a `|` each.
fn tokens(alloc: Global, pointer: &Pointer) -> Result<String, Fail> {
    let mut shown = String::new(alloc);
    for token in pointer.steps() {
        shown.push_str("|")?;
        shown.push_str(token.as_str())?;
    }
    Ok(shown)
}

/// The tokens of a text, or the byte at which it leaves the grammar.
fn tokens_or_byte(alloc: Global, text: &str) -> Result<String, Fail> {
    match Pointer::read(alloc, text) {
        Ok(pointer) => tokens(alloc, &pointer),
        Err(PointerFault::BadPointer(at)) => Ok(format!(in alloc; "{at}")?),
        Err(PointerFault::Memory) => Ok(String::from_str(alloc, "no memory")?),
    }
}

/// The first text that has another outcome, if there is one.
fn first_wrong_text(alloc: Global) -> Result<Option<usize>, Fail> {
    for (number, (text, expected)) in TEXTS.iter().enumerate() {
        if tokens_or_byte(alloc, text)?.as_str() != *expected {
            return Ok(Some(number));
        }
    }
    Ok(None)
}

#[test]
fn texts_are_pointers_or_leave_the_grammar(rt: HostRuntime) -> Result<(), Fail> {
    assert_eq!(rt; first_wrong_text(rt.alloc())?, None);
    Ok(())
}

/// The pointers of texts that are pointers, or none where one is not.
fn sure_pointers(alloc: Global, texts: &[&str]) -> Result<Vec<Pointer>, Fail> {
    match pointers_of(alloc, texts)? {
        Ok(pointers) => Ok(pointers),
        Err(_) => Ok(Vec::new(alloc)),
    }
}

/// The part of a part: what the first pointers leave, and of this what the others leave.
fn part_of_part(alloc: Global, texts: &[&str], others: &[&str]) -> Result<String, Fail> {
    let tree = read(alloc, b"{\"x\":[\"k\",\"l\",\"m\",\"n\"]}")?;
    let first = sure_pointers(alloc, texts)?;
    let second = sure_pointers(alloc, others)?;
    match select(alloc, &tree, first.as_slice()) {
        Ok(Some(part)) => {
            let again = select(alloc, &part, second.as_slice());
            Ok(format!(in alloc; "{again:?}")?)
        }
        _ => Ok(String::new(alloc)),
    }
}

/// Pointers, pointers into the part that they select, and the part that these select.
const PARTS_OF_PARTS: [(&[&str], &[&str], &str); 3] = [
    (
        &["/x/1", "/x/3"],
        &["/x/1", "/x/1"],
        "Ok(Some(Object(Items { items: [Member { key: Text { text: \"x\" }, value: List(Items { items: [Item { at: 3, value: Text(Text { text: \"n\" }) }] }) }] })))",
    ),
    (
        &["/x/1", "/x/3"],
        &["/x/0", "/x/1"],
        "Ok(Some(Object(Items { items: [Member { key: Text { text: \"x\" }, value: List(Items { items: [Item { at: 1, value: Text(Text { text: \"l\" }) }, Item { at: 3, value: Text(Text { text: \"n\" }) }] }) }] })))",
    ),
    (&["/x/1", "/x/3"], &["/x", "/x/3"], "Err(Missing(1))"),
];

/// The first part of a part that is another, if there is one.
fn first_wrong_part_of_part(alloc: Global) -> Result<Option<usize>, Fail> {
    for (number, (texts, others, expected)) in PARTS_OF_PARTS.iter().enumerate() {
        if part_of_part(alloc, texts, others)?.as_str() != *expected {
            return Ok(Some(number));
        }
    }
    Ok(None)
}

#[test]
fn indexes_are_of_the_present_order_and_places_are_not(rt: HostRuntime) -> Result<(), Fail> {
    assert_eq!(rt; first_wrong_part_of_part(rt.alloc())?, None);
    Ok(())
}

/// What a text that is no pointer is answered.
fn pointer_fault(alloc: Global, fault: PointerFault) -> Result<String, Fail> {
    Ok(format!(in alloc; "{fault}")?)
}

/// What is answered in place of a part.
fn select_fault(alloc: Global, fault: SelectFault) -> Result<String, Fail> {
    Ok(format!(in alloc; "{fault}")?)
}

#[test]
fn faults_say_why(rt: HostRuntime) -> Result<(), Fail> {
    let alloc = rt.alloc();
    assert_eq!(rt;
        pointer_fault(alloc, PointerFault::BadPointer(3))?.as_str(),
        "no JSON Pointer: it fails at byte 3"
    );
    assert_eq!(rt;
        pointer_fault(alloc, PointerFault::Memory)?.as_str(),
        "out of memory"
    );
    assert_eq!(rt;
        select_fault(alloc, SelectFault::Missing(2))?.as_str(),
        "pointer 2 names no place"
    );
    assert_eq!(rt;
        select_fault(alloc, SelectFault::Memory)?.as_str(),
        "out of memory"
    );
    Ok(())
}
