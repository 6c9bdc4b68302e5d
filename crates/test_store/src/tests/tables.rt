//! Tables: their entries, and the arrays that are made of them.
use super::{Row, Step, check};
use sno_value::{Name, ObjId};
use std::test::Fail;

const ORDERED_ENTRIES: &[Step] = &[
    Step::NewTable(Ok(0)),
    Step::Find(0, Row::Str("b"), Ok(None)),
    Step::Entry(0, Row::Str("b"), Ok(0)),
    Step::Get(Name::Entry(ObjId(0), 0), Row::Str("")),
    Step::Set(Name::Entry(ObjId(0), 0), Row::Int(1)),
    Step::Entry(0, Row::Str("a"), Ok(1)),
    Step::Set(Name::Entry(ObjId(0), 1), Row::Int(2)),
    Step::Entry(0, Row::Str("b"), Ok(0)),
    Step::Set(Name::Entry(ObjId(0), 0), Row::Int(3)),
    Step::Find(0, Row::Str("c"), Ok(None)),
    Step::TableToArray(0, Ok(Some(1))),
    Step::Prototype(1, Ok(b"2,2")),
    Step::Get(Name::Elem(ObjId(1), 0), Row::Str("b")),
    Step::Get(Name::Elem(ObjId(1), 1), Row::Int(3)),
    Step::Get(Name::Elem(ObjId(1), 2), Row::Str("a")),
    Step::Get(Name::Elem(ObjId(1), 3), Row::Int(2)),
];

const KEYS_OF_EACH_TYPE: &[Step] = &[
    Step::NewTable(Ok(0)),
    Step::Entry(0, Row::Int(1), Ok(0)),
    Step::Entry(0, Row::Str("1"), Ok(1)),
    Step::Entry(0, Row::Str(""), Ok(2)),
    Step::Entry(0, Row::Table(0), Ok(3)),
    Step::Entry(0, Row::Array(0), Ok(4)),
    Step::Entry(0, Row::Name(Name::Entry(ObjId(0), 0)), Ok(5)),
    Step::Entry(0, Row::Name(Name::Elem(ObjId(1), 0)), Ok(6)),
    Step::Find(0, Row::Str("1"), Ok(Some(1))),
    Step::Find(0, Row::Name(Name::Entry(ObjId(0), 0)), Ok(Some(5))),
    Step::Find(0, Row::Name(Name::Entry(ObjId(0), 1)), Ok(None)),
    Step::Find(0, Row::Pattern(0), Err(1)),
    Step::Entry(0, Row::Pattern(0), Err(1)),
    Step::Find(0, Row::Expression(0), Err(1)),
    Step::Entry(0, Row::Expression(0), Err(1)),
];

const NULL_ENTRIES: &[Step] = &[
    Step::NewTable(Ok(0)),
    Step::TableToArray(0, Ok(None)),
    Step::Entry(0, Row::Str("k"), Ok(0)),
    Step::TableToArray(0, Ok(None)),
    Step::Entry(0, Row::Int(7), Ok(1)),
    Step::Set(Name::Entry(ObjId(0), 1), Row::Int(0)),
    Step::TableToArray(0, Ok(Some(1))),
    Step::Prototype(1, Ok(b"1,2")),
    Step::Get(Name::Elem(ObjId(1), 0), Row::Int(7)),
    Step::Get(Name::Elem(ObjId(1), 1), Row::Int(0)),
];

const NO_TABLES: &[Step] = &[
    Step::NewArray("1", Row::Int(0), Ok(0)),
    Step::Find(0, Row::Int(1), Err(1)),
    Step::Entry(0, Row::Int(1), Err(1)),
    Step::TableToArray(0, Err(1)),
    Step::TableToArray(1, Err(1)),
    Step::NewTable(Ok(1)),
    Step::Element(1, &[1], Err(1)),
    Step::Prototype(1, Err(1)),
];

const NAMED_LAST: &[Step] = &[
    Step::NewTable(Ok(0)),
    Step::Find(0, Row::Int(1), Ok(None)),
    Step::Entry(0, Row::Str("1"), Ok(0)),
    Step::Find(0, Row::Str("1"), Ok(Some(0))),
    Step::Find(0, Row::Int(1), Ok(None)),
    Step::Entry(0, Row::Int(1), Ok(1)),
    Step::Find(0, Row::Str("1"), Ok(Some(0))),
    Step::Find(0, Row::Int(1), Ok(Some(1))),
    Step::Set(Name::Entry(ObjId(0), 1), Row::Int(5)),
    Step::Find(0, Row::Int(1), Ok(Some(1))),
    Step::Entry(0, Row::Str("1"), Ok(0)),
    Step::Find(0, Row::Str(""), Ok(None)),
    Step::Find(0, Row::Str("1"), Ok(Some(0))),
    Step::Get(Name::Entry(ObjId(0), 1), Row::Int(5)),
];

// the last 28 bits of the hashes of these texts are equal, and the last 24 bits of those of the numbers
const NEAR_KEYS: &[Step] = &[
    Step::NewTable(Ok(0)),
    Step::Entry(0, Row::Str("AAADOFSVX"), Ok(0)),
    Step::Find(0, Row::Str("AAAHXLTCH"), Ok(None)),
    Step::Entry(0, Row::Str("AAAHXLTCH"), Ok(1)),
    Step::Find(0, Row::Str("AACHNYJPB"), Ok(None)),
    Step::Entry(0, Row::Str("AACHNYJPB"), Ok(2)),
    Step::Entry(0, Row::Int(7276535), Ok(3)),
    Step::Find(0, Row::Int(15662595), Ok(None)),
    Step::Entry(0, Row::Int(15662595), Ok(4)),
    Step::Set(Name::Entry(ObjId(0), 0), Row::Int(10)),
    Step::Set(Name::Entry(ObjId(0), 1), Row::Int(11)),
    Step::Set(Name::Entry(ObjId(0), 3), Row::Int(13)),
    Step::Find(0, Row::Str("AAADOFSVX"), Ok(Some(0))),
    Step::Find(0, Row::Str("AAAHXLTCH"), Ok(Some(1))),
    Step::Find(0, Row::Str("AACHNYJPB"), Ok(Some(2))),
    Step::Find(0, Row::Int(7276535), Ok(Some(3))),
    Step::Find(0, Row::Int(15662595), Ok(Some(4))),
    Step::Get(Name::Entry(ObjId(0), 0), Row::Int(10)),
    Step::Get(Name::Entry(ObjId(0), 1), Row::Int(11)),
    Step::Get(Name::Entry(ObjId(0), 2), Row::Str("")),
    Step::Get(Name::Entry(ObjId(0), 3), Row::Int(13)),
    Step::Get(Name::Entry(ObjId(0), 4), Row::Str("")),
];

// two and two of these texts have the same hash, in all of its 64 bits
const EQUAL_HASHES: &[Step] = &[
    Step::NewTable(Ok(0)),
    Step::Entry(0, Row::Str("JPLDKEIDKHPIIHME"), Ok(0)),
    Step::Find(0, Row::Str("NOJDCHOMGLGDFFDA"), Ok(None)),
    Step::Entry(0, Row::Str("NOJDCHOMGLGDFFDA"), Ok(1)),
    Step::Entry(0, Row::Str("LEKEPCHDLCIJJINI"), Ok(2)),
    Step::Find(0, Row::Str("BDMHBPFGLLALDHBC"), Ok(None)),
    Step::Entry(0, Row::Str("JHDKKJECGHEMIGHA"), Ok(3)),
    Step::Entry(0, Row::Str("OKPILMJEIFMCLOEC"), Ok(4)),
    Step::Entry(0, Row::Str("BDMHBPFGLLALDHBC"), Ok(5)),
    Step::Entry(0, Row::Str("NGLLHOLKLPKJMOJJ"), Ok(6)),
    Step::Find(0, Row::Str("KGGBPPMAJKOGCHNO"), Ok(None)),
    Step::Set(Name::Entry(ObjId(0), 1), Row::Int(11)),
    Step::Set(Name::Entry(ObjId(0), 5), Row::Int(15)),
    Step::Find(0, Row::Str("JPLDKEIDKHPIIHME"), Ok(Some(0))),
    Step::Find(0, Row::Str("NOJDCHOMGLGDFFDA"), Ok(Some(1))),
    Step::Find(0, Row::Str("LEKEPCHDLCIJJINI"), Ok(Some(2))),
    Step::Find(0, Row::Str("JHDKKJECGHEMIGHA"), Ok(Some(3))),
    Step::Find(0, Row::Str("OKPILMJEIFMCLOEC"), Ok(Some(4))),
    Step::Find(0, Row::Str("BDMHBPFGLLALDHBC"), Ok(Some(5))),
    Step::Find(0, Row::Str("NGLLHOLKLPKJMOJJ"), Ok(Some(6))),
    Step::Entry(0, Row::Str("NOJDCHOMGLGDFFDA"), Ok(1)),
    Step::Entry(0, Row::Str("BDMHBPFGLLALDHBC"), Ok(5)),
    Step::Get(Name::Entry(ObjId(0), 0), Row::Str("")),
    Step::Get(Name::Entry(ObjId(0), 1), Row::Int(11)),
    Step::Get(Name::Entry(ObjId(0), 2), Row::Str("")),
    Step::Get(Name::Entry(ObjId(0), 5), Row::Int(15)),
];

// two and two of these numbers have the same hash, in all of its 64 bits
const EQUAL_NUMBERS: &[Step] = &[
    Step::NewTable(Ok(0)),
    Step::Entry(0, Row::Int(1255372735144115403), Ok(0)),
    Step::Find(0, Row::Int(-4443254203475492455), Ok(None)),
    Step::Entry(0, Row::Int(-4443254203475492455), Ok(1)),
    Step::Entry(0, Row::Int(-6982680755419654596), Ok(2)),
    Step::Entry(0, Row::Int(-7820741339873550731), Ok(3)),
    Step::Entry(0, Row::Str("JPLDKEIDKHPIIHME"), Ok(4)),
    Step::Entry(0, Row::Str("NOJDCHOMGLGDFFDA"), Ok(5)),
    Step::Set(Name::Entry(ObjId(0), 1), Row::Str("one")),
    Step::Set(Name::Entry(ObjId(0), 3), Row::Str("three")),
    Step::Find(0, Row::Int(1255372735144115403), Ok(Some(0))),
    Step::Find(0, Row::Int(-4443254203475492455), Ok(Some(1))),
    Step::Find(0, Row::Int(-6982680755419654596), Ok(Some(2))),
    Step::Find(0, Row::Int(-7820741339873550731), Ok(Some(3))),
    Step::Find(0, Row::Str("NOJDCHOMGLGDFFDA"), Ok(Some(5))),
    Step::Find(0, Row::Str("-4443254203475492455"), Ok(None)),
    Step::Find(0, Row::Name(Name::Entry(ObjId(0), 1)), Ok(None)),
    Step::Get(Name::Entry(ObjId(0), 0), Row::Str("")),
    Step::Get(Name::Entry(ObjId(0), 1), Row::Str("one")),
    Step::Get(Name::Entry(ObjId(0), 2), Row::Str("")),
    Step::Get(Name::Entry(ObjId(0), 3), Row::Str("three")),
];

/// Calls of a new store each.
const STORES: [(&str, &[Step]); 8] = [
    ("entries keep their order", ORDERED_ENTRIES),
    ("types tell keys apart", KEYS_OF_EACH_TYPE),
    ("null entries are left out", NULL_ENTRIES),
    (
        "the entry that was named last is found again, and no other",
        NAMED_LAST,
    ),
    ("other objects are no tables", NO_TABLES),
    ("keys with near hashes are told apart", NEAR_KEYS),
    ("texts with equal hashes are told apart", EQUAL_HASHES),
    ("numbers with equal hashes are told apart", EQUAL_NUMBERS),
];

#[test]
fn answers(rt: HostRuntime) -> Result<(), Fail> {
    check(&rt, rt.alloc(), &STORES)
}
