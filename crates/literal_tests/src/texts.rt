//! Documents and their canonical texts, as another program gives them (the sample canonicalizer of
//! RFC 8785, appendix A, in JavaScript), and trees that no document spells.
use jcs_text::{JcsFault, Memory, Text, jcs};
use json_tree::{Item, Items, Member, Tree, read};
use std::alloc::Global;
use std::test::Fail;

/// Each document with its canonical text.
const TEXTS: [(&str, &str); 17] = [
    // RFC 8785, 3.2.2: the literals and the string of its example.
    (
        r#"{ "string" : "\u20ac$\u000F\u000aA'\u0042\u0022\u005c\\\"\/", "literals" : [ null , true , false ] }"#,
        "{\"literals\":[null,true,false],\"string\":\"\u{20ac}$\\u000f\\nA'B\\\"\\\\\\\\\\\"/\"}",
    ),
    // RFC 8785, 3.2.3: its example.
    (
        r#"{"\u20ac":"Euro Sign","\r":"Carriage Return","\ufb33":"Hebrew Letter Dalet With Dagesh","1":"One","\ud83d\ude00":"Emoji: Grinning Face","\u0080":"Control","\u00f6":"Latin Small Letter O With Diaeresis"}"#,
        "{\"\\r\":\"Carriage Return\",\"1\":\"One\",\"\u{80}\":\"Control\",\"\u{f6}\":\"Latin Small Letter O With Diaeresis\",\"\u{20ac}\":\"Euro Sign\",\"\u{1f600}\":\"Emoji: Grinning Face\",\"\u{fb33}\":\"Hebrew Letter Dalet With Dagesh\"}",
    ),
    // RFC 8785, appendix B: the whole numbers of 53 bits, and others.
    (
        r#"[0,9007199254740992,-9007199254740992,1,-1,10,4294967296]"#,
        "[0,9007199254740992,-9007199254740992,1,-1,10,4294967296]",
    ),
    // Names at the bounds of one unit and of two, beside one another and after a common part.
    (
        r#"{"\uffff":1,"\ud800\udc00":2,"\udbff\udfff":3,"\ue000":4,"\ud7ff":5}"#,
        "{\"\u{d7ff}\":5,\"\u{10000}\":2,\"\u{10ffff}\":3,\"\u{e000}\":4,\"\u{ffff}\":1}",
    ),
    (
        r#"{"a\uff61":1,"a\ud834\udd1e":2,"a":3,"a\u0000":4,"":5}"#,
        "{\"\":5,\"a\":3,\"a\\u0000\":4,\"a\u{1d11e}\":2,\"a\u{ff61}\":1}",
    ),
    (
        r#"{"\ud83d\ude02":1,"\ud83d\ude00b":2,"\ud83d\ude00":3,"\ud83d\ude00a":4,"\ud83c\udfff":5}"#,
        "{\"\u{1f3ff}\":5,\"\u{1f600}\":3,\"\u{1f600}a\":4,\"\u{1f600}b\":2,\"\u{1f602}\":1}",
    ),
    (
        r#"{"Z":1,"a":2,"\u00e9":3,"z":4,"10":5,"9":6,"_":7}"#,
        "{\"10\":5,\"9\":6,\"Z\":1,\"_\":7,\"a\":2,\"z\":4,\"\u{e9}\":3}",
    ),
    // Every control, the marks, and characters that stand for themselves.
    (
        r#""\u0000\u0001\u0002\u0003\u0004\u0005\u0006\u0007\u0008\u0009\u000a\u000b\u000c\u000d\u000e\u000f""#,
        "\"\\u0000\\u0001\\u0002\\u0003\\u0004\\u0005\\u0006\\u0007\\b\\t\\n\\u000b\\f\\r\\u000e\\u000f\"",
    ),
    (
        r#""\u0010\u0011\u0012\u0013\u0014\u0015\u0016\u0017\u0018\u0019\u001a\u001b\u001c\u001d\u001e\u001f""#,
        "\"\\u0010\\u0011\\u0012\\u0013\\u0014\\u0015\\u0016\\u0017\\u0018\\u0019\\u001a\\u001b\\u001c\\u001d\\u001e\\u001f\"",
    ),
    (
        r#""\" \\ \/ ' < > & \u007f \u0080 \u00a0 \u2028 \ufeff \uffff \ud834\udd1e""#,
        "\"\\\" \\\\ / ' < > & \u{7f} \u{80} \u{a0} \u{2028} \u{feff} \u{ffff} \u{1d11e}\"",
    ),
    // Values in values.
    (r#"null"#, "null"),
    (r#"true"#, "true"),
    (r#"[]"#, "[]"),
    (r#"{}"#, "{}"),
    (r#""""#, "\"\""),
    (r#"{"b":1,"a":[true,null]}"#, "{\"a\":[true,null],\"b\":1}"),
    (
        r#"[ { "b" : [ ] , "a" : { "d" : { } , "c" : [ [ 1 ] , 2 ] } } , "x" ]"#,
        "[{\"a\":{\"c\":[[1],2],\"d\":{}},\"b\":[]},\"x\"]",
    ),
];

/// Documents with a version number.
const VERSIONS: [&str; 4] = [
    "{\"@version\":1.1}",
    "{\"@version\":1.1,\"a\":1}",
    "{\"z\":[{\"@version\":2.5}],\"a\":1}",
    "[[],{\"a\":{\"b\":{\"@version\":0.5}}}]",
];

#[test]
fn documents_have_one_canonical_text(rt: HostRuntime) -> Result<(), Fail> {
    for row in &TEXTS {
        let (document, expected) = *row;
        let tree = read(rt.alloc(), document.as_bytes())?;
        let text = jcs(rt.alloc(), &tree)?;
        assert_eq!(rt; text.as_str(), expected, "at {document}");
        let again = read(rt.alloc(), text.as_bytes())?;
        assert!(rt; again == tree, "at {document}");
    }
    for document in &VERSIONS {
        let tree = read(rt.alloc(), document.as_bytes())?;
        assert!(rt; jcs(rt.alloc(), &tree).err() == Some(JcsFault::Version));
    }
    let whole = read(rt.alloc(), b"{\"@version\":1}")?;
    assert_eq!(rt; jcs(rt.alloc(), &whole)?.as_str(), "{\"@version\":1}");
    Ok(())
}

/// The least and the greatest whole number of a tree, and those that a document spells.
const WHOLE_NUMBERS: [(i128, &str); 6] = [
    (i128::MIN, "-170141183460469231731687303715884105728"),
    (i128::MAX, "170141183460469231731687303715884105727"),
    (18446744073709551615, "18446744073709551615"),
    (-9223372036854775808, "-9223372036854775808"),
    (9007199254740993, "9007199254740993"),
    (0, "0"),
];

/// An object with these names, each with its place in the list as its value.
fn numbered(alloc: Global, names: &[&str]) -> Result<Tree, Memory> {
    let mut members = Items::new(alloc);
    for at in 0..names.len() {
        members.push(Member {
            key: Text::from_str(alloc, names[at])?,
            value: Tree::Whole(at as i128),
        })?;
    }
    Ok(Tree::Object(members))
}

/// Names in no order, and the object's text: two names twice, and names that code points and code
/// units order differently.
const NAMES: [(&[&str], &str); 3] = [
    (&["b", "a", "b", "a"], "{\"a\":1,\"a\":3,\"b\":0,\"b\":2}"),
    (
        &["\u{ffff}", "\u{10000}", "\u{e000}"],
        "{\"\u{10000}\":1,\"\u{e000}\":2,\"\u{ffff}\":0}",
    ),
    (
        &[
            "v", "u", "t", "s", "r", "q", "p", "o", "n", "m", "l", "k", "j", "i", "h", "g", "f",
            "e", "d", "c", "b", "a",
        ],
        "{\"a\":21,\"b\":20,\"c\":19,\"d\":18,\"e\":17,\"f\":16,\"g\":15,\"h\":14,\"i\":13,\"j\":12,\"k\":11,\"l\":10,\"m\":9,\"n\":8,\"o\":7,\"p\":6,\"q\":5,\"r\":4,\"s\":3,\"t\":2,\"u\":1,\"v\":0}",
    ),
];

#[test]
fn trees_have_one_canonical_text(rt: HostRuntime) -> Result<(), Fail> {
    for row in &WHOLE_NUMBERS {
        let (number, expected) = *row;
        let text = jcs(rt.alloc(), &Tree::Whole(number))?;
        assert_eq!(rt; text.as_str(), expected);
    }
    for row in &NAMES {
        let (names, expected) = *row;
        let tree = numbered(rt.alloc(), names)?;
        assert_eq!(rt; jcs(rt.alloc(), &tree)?.as_str(), expected);
    }
    let mut items = Items::new(rt.alloc());
    for at in [9u64, 4] {
        items.push(Item {
            at,
            value: Tree::Whole(at as i128),
        })?;
    }
    assert_eq!(rt; jcs(rt.alloc(), &Tree::List(items))?.as_str(), "[9,4]");
    assert!(rt; jcs(rt.alloc(), &Tree::Version).err() == Some(JcsFault::Version));
    Ok(())
}

#[test]
fn faults_say_why(rt: HostRuntime) -> Result<(), Fail> {
    let alloc = rt.alloc();
    let version = JcsFault::Version;
    assert_eq!(rt;
        format!(in alloc; "{version}")?.as_str(),
        "the tree holds a version number"
    );
    let memory = JcsFault::Memory;
    assert_eq!(rt; format!(in alloc; "{memory}")?.as_str(), "out of memory");
    Ok(())
}
