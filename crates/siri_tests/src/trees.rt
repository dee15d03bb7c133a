//! Documents and what is found in their trees, numbers, and the texts of paths.

use siri_base::{Copies, Name};
use siri_json::{
    LONGEST_DOCUMENT, Path, Scratch, Step, TextOf, Tree, TreeError, Value, entry_at, entry_list,
    member, quote_numbers, read_tree, text_of, write_tree,
};
use std::alloc::{AllocError, Global};
use std::test::Fail;

/// The documents of RFC 8259, section 13.
const AN_IMAGE: &str = r#"{
"Image": {
"Width":  800,
"Height": 600,
"Title":  "View from 15th Floor",
"Thumbnail": {
"Url":    "http://www.example.com/image/481989943",
"Height": 125,
"Width":  100
},
"Animated" : false,
"IDs": [116, 943, 234, 38793]
}
}"#;

const TWO_PLACES: &str = r#"[
{
"precision": "zip",
"Latitude":  37.7668,
"Longitude": -122.3959,
"Address":   "",
"City":      "SAN FRANCISCO",
"State":     "CA",
"Zip":       "94107",
"Country":   "US"
},
{
"precision": "zip",
"Latitude":  37.371991,
"Longitude": -122.026020,
"Address":   "",
"City":      "SUNNYVALE",
"State":     "CA",
"Zip":       "94085",
"Country":   "US"
}
]"#;

/// A row: a document, the names of a member and of one inside it, and the texts of what stands there, or why there is
/// no tree. The last three are of RFC 8259, section 13.
static DOCUMENTS: [(&str, (&str, &str), &str); 13] = [
    ("[01]", ("", ""), "NotJson"),
    ("{1:2}", ("", ""), "NotJson"),
    ("{1.5:2}", ("", ""), "NotJson"),
    ("{1.5 \t:2}", ("", ""), "NotJson"),
    ("", ("", ""), "NotJson"),
    (r#"[2.35,"2.35",-0,1E+2]"#, ("", ""), "2.35 2.35 -0 1E+2 "),
    (r#"{"b":1,"a":"4\"5","b":null}"#, ("a", ""), r#"4"5 "#),
    (r#"{"b":1,"a":"4\"5","b":null}"#, ("b", ""), "None"),
    (r#""Hello world!""#, ("", ""), "Hello world! "),
    ("42", ("", ""), "42 "),
    ("true", ("", ""), "Wrong "),
    (AN_IMAGE, ("Image", "IDs"), "116 943 234 38793 "),
    (TWO_PLACES, ("Longitude", ""), "-122.3959 "),
];

/// The member of that name, in a list's first entry; without a name the value itself.
fn member_below<'v, 'a>(value: &'v Tree<'a>, name: &str) -> Option<&'v Tree<'a>> {
    if name.is_empty() {
        return Some(value);
    }
    member(entry_at(value, 0)?, name)
}

/// The member `inner` of the member `outer`.
fn member_of_member<'v, 'a>(tree: &'v Tree<'a>, outer: &str, inner: &str) -> Option<&'v Tree<'a>> {
    member_below(member_below(tree, outer)?, inner)
}

/// The texts of its entries, each with a space after it.
fn texts_of_entries(alloc: Global, value: &Tree<'_>) -> Result<String, AllocError> {
    let mut told = String::new(alloc);
    for entry in entry_list(value) {
        told.push_str(match text_of(entry) {
            TextOf::Is(text) => text,
            TextOf::Absent => "Absent",
            TextOf::Wrong => "Wrong",
        })?;
        told.push_str(" ")?;
    }
    Ok(told)
}

/// What stands below these names in a document's tree, or the name of what was answered in its place.
fn told_below(alloc: Global, document: &[u8], names: (&str, &str)) -> Result<String, AllocError> {
    let mut scratch = Scratch::new(alloc);
    let name = match read_tree(alloc, document, &mut scratch) {
        Ok(tree) => match member_of_member(&tree, names.0, names.1) {
            Some(value) => return texts_of_entries(alloc, value),
            None => "None",
        },
        Err(TreeError::NotJson) => "NotJson",
        Err(TreeError::TooLong) => "TooLong",
        Err(TreeError::OutOfMemory) => "OutOfMemory",
    };
    String::from_str(alloc, name)
}

#[test]
fn documents_are_read_with_their_numbers_as_texts(rt: HostRuntime) -> Result<(), Fail> {
    for (document, names, want) in &DOCUMENTS {
        let text = told_below(rt.alloc(), document.as_bytes(), *names)?;
        assert!(rt; text.as_str() == *want, "{document}");
    }
    let spaces = vec![in rt.alloc(); b' '; LONGEST_DOCUMENT + 1]?;
    assert!(rt; told_below(rt.alloc(), &spaces, ("", ""))?.as_str() == "TooLong");
    assert!(rt; told_below(rt.alloc(), b"\"\xff\"", ("", ""))?.as_str() == "NotJson");
    Ok(())
}

/// The text of a list of a number and a text.
fn written_list(alloc: Global) -> Option<Vec<u8>> {
    let mut entries = Vec::new(alloc);
    entries.push(Value::from(1u64)).ok()?;
    entries
        .push(Value::String(String::from_str(alloc, "1").ok()?))
        .ok()?;
    write_tree(alloc, &Value::Array(entries)).ok()
}

#[test]
fn numbers_are_quoted_outside_of_strings(rt: HostRuntime) -> Result<(), Fail> {
    let document = r#"{"a":[1,-2.5e3,"3"],"4":true}"#;
    let text = quote_numbers(rt.alloc(), document.as_bytes())
        .ok()
        .ok_or("a text")?;
    assert!(rt; text.as_slice() == br#"{"a":["1","-2.5e3","3"],"4":true}"#.as_slice());
    let plain = written_list(rt.alloc()).ok_or("a text")?;
    assert!(rt; plain.as_slice() == br#"[1,"1"]"#.as_slice());
    Ok(())
}

/// The path `Calls[12].Order`, by each call that makes one longer.
fn long_path(alloc: Global) -> Option<Path> {
    let mut later = Path::new(alloc);
    later
        .push(Step::Member(Name::new(alloc, "Order").ok()?))
        .ok()?;
    later.prepend(Step::Place(12)).ok()?;
    let mut path = Path::new(alloc);
    path.push(Step::Member(Name::new(alloc, "Calls").ok()?))
        .ok()?;
    path.join(later.copy().ok()?).ok()
}

#[test]
fn paths_are_written(rt: HostRuntime) -> Result<(), Fail> {
    let empty = Path::new(rt.alloc()).text().ok().ok_or("a text")?;
    assert!(rt; empty.slice() == b".".as_slice());
    let path = long_path(rt.alloc()).ok_or("a path")?;
    let text = path.text().ok().ok_or("a text")?;
    assert!(rt; text.slice() == b"Calls[12].Order".as_slice());
    Ok(())
}
