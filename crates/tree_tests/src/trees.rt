//! Documents and the trees that RFC 8259 gives them, by hand. Trees are compared as `Debug` shows them.
use json_tree::{
    Item, Items, Place, Step, Text, Tree, TreeFault, look, member, pointer_text, print, read,
    text_member,
};
use std::alloc::Global;
use std::test::Fail;

/// Each document with the tree that it spells, or with the fault and the place that it carries.
const DOCUMENTS: [(&str, &str); 41] = [
    ("null", "Null"),
    (" true ", "Bool(true)"),
    ("false", "Bool(false)"),
    ("\"a\\u0062\\n\"", "Text(Text { text: \"ab\\n\" })"),
    ("\"\u{e9}\"", "Text(Text { text: \"\u{e9}\" })"),
    ("[]", "List(Items { items: [] })"),
    (
        "[null,[0],false]",
        "List(Items { items: [Item { at: 0, value: Null }, Item { at: 1, value: List(Items { items: [Item { at: 0, value: Whole(0) }] }) }, Item { at: 2, value: Bool(false) }] })",
    ),
    (
        "{\"b\":1,\"a\":null}",
        "Object(Items { items: [Member { key: Text { text: \"a\" }, value: Null }, Member { key: Text { text: \"b\" }, value: Whole(1) }] })",
    ),
    (
        "{\"a\":1.5,\"a\":true}",
        "Object(Items { items: [Member { key: Text { text: \"a\" }, value: Bool(true) }] })",
    ),
    ("", "NotJson"),
    ("nul", "NotJson"),
    ("[1,]", "NotJson"),
    ("1 2", "NotJson"),
    ("{a:1}", "NotJson"),
    // Numbers. The reader gives `-0` as a float, and has none for what is too great for one.
    ("18446744073709551615", "Whole(18446744073709551615)"),
    ("18446744073709551616", "NotWhole "),
    ("-9223372036854775808", "Whole(-9223372036854775808)"),
    ("-9223372036854775809", "NotWhole "),
    ("9223372036854775808", "Whole(9223372036854775808)"),
    ("-1", "Whole(-1)"),
    ("-0", "NotWhole "),
    ("1.0", "NotWhole "),
    ("1e0", "NotWhole "),
    ("-12.5e3", "NotWhole "),
    ("1e400", "NotJson"),
    // The version number.
    (
        "{\"@version\":1.1}",
        "Object(Items { items: [Member { key: Text { text: \"@version\" }, value: Version }] })",
    ),
    (
        "{\"@version\":1}",
        "Object(Items { items: [Member { key: Text { text: \"@version\" }, value: Whole(1) }] })",
    ),
    ("{\"@version\":[1.1]}", "NotWhole /@version/0"),
    ("{\"@version\":{\"v\":1.1}}", "NotWhole /@version/v"),
    ("{\"version\":1.1}", "NotWhole /version"),
    ("[1.1]", "NotWhole /0"),
    // The first of two places, and the one that is misplaced.
    ("{\"b\":1.5,\"a\":[1,2.5,3.5]}", "NotWhole /a/1"),
    ("[[],[7,1.5],1.5]", "NotWhole /1/1"),
    ("{\"@version\":1.1,\"a\":1.1}", "NotWhole /a"),
    ("{\"a\":{\"z\":0.5},\"a b\":0.5,\"Z\":0}", "NotWhole /a/z"),
    // The examples of RFC 6901, section 5, and what needs both escapes.
    ("{\"a/b\":0.5}", "NotWhole /a~1b"),
    ("{\"m~n\":0.5}", "NotWhole /m~0n"),
    ("{\"\":0.5}", "NotWhole /"),
    ("{\"k\\\"l\":0.5}", "NotWhole /k\"l"),
    ("{\"~1/\":[0,{\"\u{e9}\":0.5}]}", "NotWhole /~01~1/1/\u{e9}"),
    ("[0,1,2,3,4,5,6,7,8,9,0.5]", "NotWhole /10"),
];

/// The tree, or the fault and the pointer to its place.
fn outcome(alloc: Global, bytes: &[u8]) -> Result<String, Fail> {
    match read(alloc, bytes) {
        Ok(tree) => Ok(format!(in alloc; "{tree:?}")?),
        Err(TreeFault::NotWhole(place)) => {
            let pointer = pointer_text(alloc, &place)?;
            Ok(format!(in alloc; "NotWhole {}", pointer.as_str())?)
        }
        Err(fault) => Ok(format!(in alloc; "{fault:?}")?),
    }
}

/// The first document that reads otherwise, if there is one.
fn first_misread(alloc: Global) -> Result<Option<usize>, Fail> {
    for (number, (text, expected)) in DOCUMENTS.iter().enumerate() {
        if outcome(alloc, text.as_bytes())?.as_str() != *expected {
            return Ok(Some(number));
        }
    }
    Ok(None)
}

#[test]
fn documents_read_as_their_trees(rt: HostRuntime) -> Result<(), Fail> {
    assert_eq!(rt; first_misread(rt.alloc())?, None);
    assert_eq!(rt; outcome(rt.alloc(), b"\"\xff\"")?.as_str(), "NotJson");
    Ok(())
}

/// So many times `open`, then `inside`, and as often `close`.
fn nested(
    alloc: Global,
    depth: usize,
    open: &str,
    inside: &str,
    close: &str,
) -> Result<String, Fail> {
    let mut text = String::new(alloc);
    for _ in 0..depth {
        text.push_str(open)?;
    }
    text.push_str(inside)?;
    for _ in 0..depth {
        text.push_str(close)?;
    }
    Ok(text)
}

/// How often lists nest, what stands inside them, and the fault, or nothing where they are read.
const NESTINGS: [(usize, &str, &str); 6] = [
    (100, "7", ""),
    (100, "[]", "TooDeep"),
    (101, "", "TooDeep"),
    (101, "0.5", "TooDeep"),
    (127, "", "TooDeep"),
    (128, "", "NotJson"),
];

/// The compact text of the tree of a document.
fn printed(alloc: Global, text: &str) -> Result<Vec<u8>, Fail> {
    let tree = read(alloc, text.as_bytes())?;
    Ok(print(alloc, &tree)?)
}

/// Whether lists that nest so have this fault, or else are read as a list and print as they were.
fn nests_so(alloc: Global, depth: usize, inside: &str, fault: &str) -> Result<bool, Fail> {
    let lists = nested(alloc, depth, "[", inside, "]")?;
    let shown = outcome(alloc, lists.as_bytes())?;
    if !fault.is_empty() {
        return Ok(shown.as_str() == fault);
    }
    let printed = printed(alloc, lists.as_str())?;
    Ok(shown.as_str().starts_with("List(") && printed.as_slice() == lists.as_bytes())
}

/// The first of the nestings that is answered otherwise, if there is one.
fn first_nested_otherwise(alloc: Global) -> Result<Option<usize>, Fail> {
    for (number, (depth, inside, fault)) in NESTINGS.iter().enumerate() {
        if !nests_so(alloc, *depth, inside, fault)? {
            return Ok(Some(number));
        }
    }
    Ok(None)
}

/// What becomes of an object inside 100 objects.
fn nested_objects(alloc: Global) -> Result<String, Fail> {
    let objects = nested(alloc, 100, "{\"a\":", "{}", "}")?;
    outcome(alloc, objects.as_bytes())
}

#[test]
fn a_nesting_of_100_is_read_and_no_more(rt: HostRuntime) -> Result<(), Fail> {
    assert_eq!(rt; first_nested_otherwise(rt.alloc())?, None);
    assert_eq!(rt; nested_objects(rt.alloc())?.as_str(), "TooDeep");
    Ok(())
}

/// Each document with its compact text.
const PRINTED: [(&str, &str); 7] = [
    ("null", "null"),
    (" [ true , false ] ", "[true,false]"),
    ("{ \"b\" : 1 , \"a\" : {} }", "{\"a\":{},\"b\":1}"),
    (
        "[18446744073709551615,-9223372036854775808,0]",
        "[18446744073709551615,-9223372036854775808,0]",
    ),
    ("{\"@version\":1.10}", "{\"@version\":1.1}"),
    (
        "\"\\u00e9\\/\\u0001\\b\\\"\\\\\"",
        "\"\u{e9}/\\u0001\\b\\\"\\\\\"",
    ),
    ("{\"\\n\":[[],\"\"]}", "{\"\\n\":[[],\"\"]}"),
];

/// The first document that prints otherwise, if there is one.
fn first_misprinted(alloc: Global) -> Result<Option<&'static str>, Fail> {
    for (text, expected) in &PRINTED {
        if printed(alloc, text)?.as_slice() != expected.as_bytes() {
            return Ok(Some(text));
        }
    }
    Ok(None)
}

#[test]
fn trees_print_as_compact_text(rt: HostRuntime) -> Result<(), Fail> {
    assert_eq!(rt; first_misprinted(rt.alloc())?, None);
    Ok(())
}

/// Names in byte order, the first and the last of them among them, and names beside them.
const NAMES: [(&str, Option<&str>); 7] = [
    ("a", Some("1")),
    ("ab", Some("2")),
    ("b", Some("3")),
    ("\u{e9}", Some("4")),
    ("", None),
    ("aa", None),
    ("\u{ea}", None),
];

/// An object with members of four of these names.
const NAMED: &str = "{\"b\":\"3\",\"\u{e9}\":\"4\",\"a\":\"1\",\"ab\":\"2\"}";

/// Whether this text is found at the name.
fn is_found_as(alloc: Global, name: &str, expected: Option<&str>) -> Result<bool, Fail> {
    let tree = read(alloc, NAMED.as_bytes())?;
    Ok(tree.get_text(name).map(|text| text.as_str()) == expected)
}

/// The first name at which another text is found, if there is one.
fn first_misfound(alloc: Global) -> Result<Option<usize>, Fail> {
    for (number, (name, expected)) in NAMES.iter().enumerate() {
        if !is_found_as(alloc, name, *expected)? {
            return Ok(Some(number));
        }
    }
    Ok(None)
}

/// Whether the object has a member `b`, and no text `c`.
fn has_b_alone(alloc: Global) -> Result<bool, Fail> {
    let tree = read(alloc, NAMED.as_bytes())?;
    match tree.as_object() {
        Some(members) => {
            Ok(member(members, "b").is_some() && text_member(members, "c").is_none())
        }
        None => Ok(false),
    }
}

#[test]
fn members_are_found_by_name(rt: HostRuntime) -> Result<(), Fail> {
    assert_eq!(rt; first_misfound(rt.alloc())?, None);
    assert!(rt; has_b_alone(rt.alloc())?);
    Ok(())
}

/// The document of RFC 6901, section 5.
const DOCUMENT: &str =
    "{\"foo\":[\"bar\",\"baz\"],\"\":0,\"a/b\":1,\"c%d\":2,\"e^f\":3,\"g|h\":4,\"i\\\\j\":5,\"k\\\"l\":6,\" \":7,\"m~n\":8}";

/// Its members in the byte order of their names.
const WHOLE: &str =
    "{\"\":0,\" \":7,\"a/b\":1,\"c%d\":2,\"e^f\":3,\"foo\":[\"bar\",\"baz\"],\"g|h\":4,\"i\\\\j\":5,\"k\\\"l\":6,\"m~n\":8}";

/// The pointers of that section below one name, with the values that it gives them.
const POINTERS: [(&str, &str, &str); 10] = [
    ("foo", "/foo", "[\"bar\",\"baz\"]"),
    ("", "/", "0"),
    ("a/b", "/a~1b", "1"),
    ("c%d", "/c%d", "2"),
    ("e^f", "/e^f", "3"),
    ("g|h", "/g|h", "4"),
    ("i\\j", "/i\\j", "5"),
    ("k\"l", "/k\"l", "6"),
    (" ", "/ ", "7"),
    ("m~n", "/m~0n", "8"),
];

/// Whether the place has this pointer, and the value there this text.
fn leads_to(
    alloc: Global,
    document: &str,
    place: &Place,
    pointer: &str,
    value: &str,
) -> Result<bool, Fail> {
    let tree = read(alloc, document.as_bytes())?;
    let text = pointer_text(alloc, place)?;
    match look(&tree, place.steps.as_slice()) {
        Some(found) => {
            let printed = print(alloc, found)?;
            Ok(text.as_str() == pointer && printed.as_slice() == value.as_bytes())
        }
        None => Ok(false),
    }
}

/// The place below one name.
fn below(alloc: Global, name: &str) -> Result<Place, Fail> {
    let mut place = Place::root(alloc);
    place.push(Step::Key(Text::from_str(alloc, name)?))?;
    Ok(place)
}

/// The first name whose place has another pointer or value, if there is one.
fn first_misled(alloc: Global) -> Result<Option<&'static str>, Fail> {
    for (name, pointer, value) in &POINTERS {
        let place = below(alloc, name)?;
        if !leads_to(alloc, DOCUMENT, &place, pointer, value)? {
            return Ok(Some(name));
        }
    }
    Ok(None)
}

#[test]
fn pointers_lead_below_one_name(rt: HostRuntime) -> Result<(), Fail> {
    assert_eq!(rt; first_misled(rt.alloc())?, None);
    Ok(())
}

/// The place of the element of a list below one name.
fn below_at(alloc: Global, name: &str, at: u64) -> Result<Place, Fail> {
    let mut place = below(alloc, name)?;
    place.push(Step::At(at))?;
    Ok(place)
}

#[test]
fn pointers_lead_to_the_whole_and_to_an_element(rt: HostRuntime) -> Result<(), Fail> {
    let alloc = rt.alloc();
    assert!(rt; leads_to(alloc, DOCUMENT, &Place::root(alloc), "", WHOLE)?);
    assert!(rt;
        leads_to(
            alloc,
            DOCUMENT,
            &below_at(alloc, "foo", 0)?,
            "/foo/0",
            "\"bar\""
        )?
    );
    Ok(())
}

/// The place of an element of a list that is the whole.
fn element(alloc: Global, at: u64) -> Result<Place, Fail> {
    let mut place = Place::root(alloc);
    place.push(Step::At(at))?;
    Ok(place)
}

/// Whether steps are taken away from the last to the first.
fn goes_back(alloc: Global, mut place: Place) -> Result<bool, Fail> {
    let foo = Step::Key(Text::from_str(alloc, "foo")?);
    Ok(place.pop() == Some(Step::At(1)) && place.pop() == Some(foo) && place.pop() == None)
}

/// Whether two places one after another are the one that is stepped to.
fn goes_on(alloc: Global) -> Result<bool, Fail> {
    let further = element(alloc, 1)?;
    let joined = below(alloc, "foo")?.then(alloc, &further)?;
    let place = below_at(alloc, "foo", 1)?;
    Ok(
        place == joined
            && place != further
            && leads_to(alloc, DOCUMENT, &joined, "/foo/1", "\"baz\"")?,
    )
}

#[test]
fn a_place_is_gone_back_and_on(rt: HostRuntime) -> Result<(), Fail> {
    assert!(rt; goes_on(rt.alloc())?);
    assert!(rt; goes_back(rt.alloc(), below_at(rt.alloc(), "foo", 1)?)?);
    Ok(())
}

/// Documents, each equal to itself alone.
const APART: [&str; 12] = [
    "null",
    "false",
    "true",
    "1",
    "\"1\"",
    "[]",
    "[1]",
    "[1,1]",
    "{}",
    "{\"a\":1}",
    "{\"a\":2}",
    "{\"b\":1}",
];

/// Whether the trees of two texts are equal.
fn are_equal(alloc: Global, text: &str, other: &str) -> Result<bool, Fail> {
    let tree = read(alloc, text.as_bytes())?;
    let copy = read(alloc, other.as_bytes())?.copy(alloc)?;
    Ok(tree == copy)
}

/// The first document that equals another one, or does not equal itself, if there is one.
fn first_misjudged(alloc: Global) -> Result<Option<(usize, usize)>, Fail> {
    for (i, text) in APART.iter().enumerate() {
        for (j, other) in APART.iter().enumerate() {
            if are_equal(alloc, text, other)? != (i == j) {
                return Ok(Some((i, j)));
            }
        }
    }
    Ok(None)
}

#[test]
fn trees_equal_their_copies_and_no_others(rt: HostRuntime) -> Result<(), Fail> {
    assert_eq!(rt; first_misjudged(rt.alloc())?, None);
    assert!(rt;
        are_equal(
            rt.alloc(),
            "{\"b\":[1],\"a\":{}}",
            "{ \"a\" : {}, \"b\" : [ 1 ] }"
        )?
    );
    assert!(rt; !are_equal(rt.alloc(), "{\"@version\":1.1}", "{\"@version\":1}")?);
    Ok(())
}

/// A list of one element, with this index.
fn one_element(alloc: Global, at: u64) -> Result<Tree, Fail> {
    let mut items = Items::new(alloc);
    items.push(Item {
        at,
        value: Tree::Null,
    })?;
    Ok(Tree::List(items))
}

/// Whether lists of one element are equal where their indexes are.
fn equal_by_index(alloc: Global, at: u64, other: u64) -> Result<bool, Fail> {
    let tree = one_element(alloc, at)?;
    Ok(tree == one_element(alloc, other)?)
}

/// Whether a copy has the index too.
fn is_copied(alloc: Global, at: u64) -> Result<bool, Fail> {
    let tree = one_element(alloc, at)?;
    Ok(tree.copy(alloc)? == tree)
}

#[test]
fn indexes_count_and_are_copied(rt: HostRuntime) -> Result<(), Fail> {
    assert!(rt; equal_by_index(rt.alloc(), 7, 7)?);
    assert!(rt; !equal_by_index(rt.alloc(), 7, 0)?);
    assert!(rt; is_copied(rt.alloc(), 7)?);
    Ok(())
}

/// A document, a name, and the document without the member of that name.
const WITHOUT: [(&str, &str, &str); 7] = [
    ("{\"a\":1,\"ab\":2}", "a", "{\"ab\":2}"),
    ("{\"a\":1,\"ab\":2}", "ab", "{\"a\":1}"),
    ("{\"a\":1,\"ab\":2}", "b", "{\"a\":1,\"ab\":2}"),
    ("{\"a\":1,\"ab\":2}", "", "{\"a\":1,\"ab\":2}"),
    ("{\"\":1}", "", "{}"),
    ("{}", "a", "{}"),
    ("[{\"a\":1}]", "a", "[{\"a\":1}]"),
];

/// Whether a document without the member of this name is the other document.
fn is_without(alloc: Global, text: &str, name: &str, expected: &str) -> Result<bool, Fail> {
    let tree = read(alloc, text.as_bytes())?.without(name);
    Ok(tree == read(alloc, expected.as_bytes())?)
}

/// The first row of `WITHOUT` that has another outcome, if there is one.
fn first_taken_otherwise(alloc: Global) -> Result<Option<usize>, Fail> {
    for (number, (text, name, expected)) in WITHOUT.iter().enumerate() {
        if !is_without(alloc, text, name, expected)? {
            return Ok(Some(number));
        }
    }
    Ok(None)
}

#[test]
fn a_member_is_taken_out_by_its_whole_name(rt: HostRuntime) -> Result<(), Fail> {
    assert_eq!(rt; first_taken_otherwise(rt.alloc())?, None);
    Ok(())
}

/// A document, a name, and the document with 0 at that name.
const WITH: [(&str, &str, &str); 8] = [
    ("{\"b\":1,\"d\":2}", "a", "{\"a\":0,\"b\":1,\"d\":2}"),
    ("{\"b\":1,\"d\":2}", "c", "{\"b\":1,\"c\":0,\"d\":2}"),
    ("{\"b\":1,\"d\":2}", "e", "{\"b\":1,\"d\":2,\"e\":0}"),
    ("{\"b\":1,\"d\":2}", "b", "{\"b\":0,\"d\":2}"),
    ("{\"b\":1,\"d\":2}", "d", "{\"b\":1,\"d\":0}"),
    ("{\"b\":1,\"d\":2}", "ba", "{\"b\":1,\"ba\":0,\"d\":2}"),
    ("{}", "a", "{\"a\":0}"),
    ("[1]", "a", "[1]"),
];

/// Whether a document with 0 at this name is the other document.
fn is_with(alloc: Global, text: &str, name: &str, expected: &str) -> Result<bool, Fail> {
    let key = Text::from_str(alloc, name)?;
    let object = read(alloc, text.as_bytes())?;
    let tree = object.with_member(alloc, key, Tree::Whole(0))?;
    Ok(tree == read(alloc, expected.as_bytes())?)
}

/// The first row of `WITH` that has another outcome, if there is one.
fn first_put_otherwise(alloc: Global) -> Result<Option<usize>, Fail> {
    for (number, (text, name, expected)) in WITH.iter().enumerate() {
        if !is_with(alloc, text, name, expected)? {
            return Ok(Some(number));
        }
    }
    Ok(None)
}

#[test]
fn a_member_is_put_in_at_its_place(rt: HostRuntime) -> Result<(), Fail> {
    assert_eq!(rt; first_put_otherwise(rt.alloc())?, None);
    Ok(())
}

/// What a fault says.
fn said(alloc: Global, fault: &TreeFault) -> Result<String, Fail> {
    Ok(format!(in alloc; "{fault}")?)
}

/// What the fault of a text says.
fn fault_of(alloc: Global, text: &str) -> Result<String, Fail> {
    match read(alloc, text.as_bytes()) {
        Ok(_) => Ok(String::from_str(alloc, "it was read")?),
        Err(fault) => said(alloc, &fault),
    }
}

#[test]
fn faults_say_why(rt: HostRuntime) -> Result<(), Fail> {
    let alloc = rt.alloc();
    assert_eq!(rt;
        said(alloc, &TreeFault::NotJson)?.as_str(),
        "the bytes are no JSON text"
    );
    assert_eq!(rt;
        said(alloc, &TreeFault::TooDeep)?.as_str(),
        "the text nests more than 100 deep"
    );
    assert_eq!(rt; said(alloc, &TreeFault::Memory)?.as_str(), "out of memory");
    assert_eq!(rt;
        fault_of(alloc, "{\"a/b\":[0,{\"~\":1.5}]}")?.as_str(),
        "the number at `/a~1b/1/~0` is not whole"
    );
    Ok(())
}
