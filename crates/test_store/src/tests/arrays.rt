//! Arrays: their prototypes, and their elements.
use super::{Row, Step, check};
use sno_value::{Name, ObjId};
use std::test::Fail;

const SUBSCRIPTS: &[Step] = &[
    Step::NewArray("2,-1:1", Row::Str("x"), Ok(0)),
    Step::Prototype(0, Ok(b"2,-1:1")),
    Step::Element(0, &[1, -1], Ok(Some(0))),
    Step::Element(0, &[1, 0], Ok(Some(1))),
    Step::Element(0, &[2, -1], Ok(Some(3))),
    Step::Element(0, &[2, 1], Ok(Some(5))),
    Step::Element(0, &[3, 0], Ok(None)),
    Step::Element(0, &[0, 0], Ok(None)),
    Step::Element(0, &[1, -2], Ok(None)),
    Step::Element(0, &[1, 2], Ok(None)),
    Step::Element(0, &[1], Err(12)),
    Step::Element(0, &[3, 9, 1], Err(12)),
    Step::Element(1, &[1], Err(1)),
    Step::Prototype(1, Err(1)),
];

const PROTOTYPES: &[Step] = &[
    Step::NewArray("0", Row::Int(0), Err(12)),
    Step::NewArray("3:2", Row::Int(0), Err(12)),
    Step::NewArray("", Row::Int(0), Err(12)),
    Step::NewArray("1,", Row::Int(0), Err(12)),
    Step::NewArray("1:2:3", Row::Int(0), Err(12)),
    Step::NewArray(" 1", Row::Int(0), Err(12)),
    Step::NewArray("9223372036854775808", Row::Int(0), Err(12)),
    Step::NewArray("1000001,0", Row::Int(0), Err(12)),
    Step::NewArray("1000001", Row::Int(0), Err(9)),
    Step::NewArray("9223372036854775807,2", Row::Int(0), Err(9)),
    Step::NewArray(
        "-9223372036854775808:9223372036854775807",
        Row::Int(0),
        Err(9),
    ),
    Step::NewArray("+3", Row::Int(0), Ok(0)),
    Step::NewArray("-3:-3", Row::Int(0), Ok(1)),
    Step::Element(1, &[-3], Ok(Some(0))),
    Step::NewArray("1000,1000", Row::Int(0), Ok(2)),
    Step::Element(2, &[1000, 1000], Ok(Some(999_999))),
];

const ELEMENTS: &[Step] = &[
    Step::NewArray("2,-1:1", Row::Str("x"), Ok(0)),
    Step::Set(Name::Elem(ObjId(0), 1), Row::Str("y")),
    Step::Set(Name::Elem(ObjId(0), 6), Row::Str("z")),
    Step::Set(Name::Entry(ObjId(0), 2), Row::Str("z")),
    Step::Get(Name::Elem(ObjId(0), 0), Row::Str("x")),
    Step::Get(Name::Elem(ObjId(0), 1), Row::Str("y")),
    Step::Get(Name::Elem(ObjId(0), 2), Row::Str("x")),
    Step::Get(Name::Elem(ObjId(0), 5), Row::Str("x")),
    Step::Get(Name::Elem(ObjId(0), 6), Row::Str("")),
];

/// Calls of a new store each.
const STORES: [(&str, &[Step]); 3] = [
    ("last subscript varies fastest", SUBSCRIPTS),
    ("judges prototypes", PROTOTYPES),
    ("keeps elements", ELEMENTS),
];

#[test]
fn answers(rt: HostRuntime) -> Result<(), Fail> {
    check(&rt, rt.alloc(), &STORES)
}
