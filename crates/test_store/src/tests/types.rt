//! Types that a program makes, and their objects.
use super::{Row, Step, check};
use sno_value::{Name, ObjId, SymId};
use std::test::Fail;

const TYPES: &[Step] = &[
    Step::Constructor(9, None),
    Step::IsField(9, false),
    Step::DefineData("NODE(VAL,NEXT)", Ok(())),
    // the name of the type first, then those of its fields
    Step::SymbolText(9, "NODE"),
    Step::SymbolText(10, "VAL"),
    Step::SymbolText(11, "NEXT"),
    Step::SymbolText(12, ""),
    Step::Get(Name::Var(SymId(10)), Row::Str("")),
    Step::Constructor(9, Some(0)),
    Step::IsField(9, false),
    Step::Constructor(10, None),
    Step::IsField(10, true),
    Step::IsField(11, true),
    Step::IsField(12, false),
    Step::Constructor(12, None),
    Step::Definition(9, None),
    Step::Definition(10, None),
    // INPUT and OUTPUT may be names, and so may the name of a pattern's variable
    Step::DefineData("INPUT(OUTPUT)", Ok(())),
    Step::Constructor(7, Some(1)),
    Step::IsField(8, true),
    Step::DefineData("LEN(ARB)", Ok(())),
    Step::SymbolText(12, "LEN"),
    Step::Constructor(12, Some(2)),
    Step::IsField(0, true),
    Step::SymbolText(13, ""),
];

const PROTOTYPES: &[Step] = &[
    Step::DefineData("", Err(12)),
    Step::DefineData("N", Err(12)),
    Step::DefineData("N()", Err(12)),
    Step::DefineData("()", Err(12)),
    Step::DefineData("(A)", Err(12)),
    Step::DefineData("N(A", Err(12)),
    Step::DefineData("N)A(", Err(12)),
    Step::DefineData("N(A)B", Err(12)),
    Step::DefineData("N(A)B,C", Err(12)),
    Step::DefineData("N(A) ", Err(12)),
    Step::DefineData("N(A))", Err(12)),
    Step::DefineData("N((A)", Err(12)),
    Step::DefineData("N(A,)", Err(12)),
    Step::DefineData("N(,A)", Err(12)),
    Step::DefineData("N(A, B)", Err(12)),
    Step::DefineData(" N(A)", Err(12)),
    Step::DefineData("N (A)", Err(12)),
    Step::DefineData("1(A)", Err(12)),
    Step::DefineData("N(1)", Err(12)),
    Step::DefineData("N(A,A)", Err(12)),
    Step::DefineData("N(A,B,A)", Err(12)),
    Step::DefineData("N(N)", Err(12)),
    Step::DefineData("N(A,N)", Err(12)),
    Step::DefineData("STRING(A)", Err(12)),
    Step::DefineData("INTEGER(A)", Err(12)),
    Step::DefineData("PATTERN(A)", Err(12)),
    Step::DefineData("ARRAY(A)", Err(12)),
    Step::DefineData("TABLE(A)", Err(12)),
    Step::DefineData("NAME(A)", Err(12)),
    Step::DefineData("EXPRESSION(A)", Err(12)),
    // none of their names has joined, and no type was made
    Step::SymbolText(9, ""),
    Step::DefineData("Table(NAME,name)", Ok(())),
    Step::Constructor(9, Some(0)),
    Step::SymbolText(11, "name"),
    Step::SymbolText(12, ""),
];

const NAMES: &[Step] = &[
    Step::DefineFields(100, Err(12)),
    Step::SymbolText(9, ""),
    Step::DefineFields(99, Ok(())),
    Step::SymbolText(9, "T"),
    Step::SymbolText(108, "F98"),
    Step::SymbolText(109, ""),
    Step::IsField(108, true),
    Step::NewData(0, &[Row::Int(1)], Ok(0)),
    Step::Field(0, 108, Some(98)),
    Step::Set(Name::Field(ObjId(0), 98), Row::Int(7)),
    Step::Get(Name::Field(ObjId(0), 98), Row::Int(7)),
    Step::Set(Name::Field(ObjId(0), 99), Row::Int(8)),
    Step::Get(Name::Field(ObjId(0), 99), Row::Str("")),
];

const OBJECTS: &[Step] = &[
    Step::DefineData("NODE(VAL,NEXT)", Ok(())),
    Step::NewTable(Ok(0)),
    Step::NewData(0, &[Row::Str("a")], Ok(1)),
    Step::NewData(0, &[Row::Str("b"), Row::Data(1), Row::Int(3)], Ok(2)),
    Step::NewData(0, &[], Ok(3)),
    // a missing field is null, and an extra one is dropped
    Step::Get(Name::Field(ObjId(1), 0), Row::Str("a")),
    Step::Get(Name::Field(ObjId(1), 1), Row::Str("")),
    Step::Get(Name::Field(ObjId(2), 0), Row::Str("b")),
    Step::Get(Name::Field(ObjId(2), 1), Row::Data(1)),
    Step::Get(Name::Field(ObjId(2), 2), Row::Str("")),
    Step::Get(Name::Field(ObjId(3), 0), Row::Str("")),
    Step::Get(Name::Field(ObjId(4), 0), Row::Str("")),
    Step::Field(1, 10, Some(0)),
    Step::Field(1, 11, Some(1)),
    Step::Field(1, 9, None),
    Step::Field(1, 12, None),
    Step::Field(0, 10, None),
    Step::Field(4, 10, None),
    Step::TypeName(1, "NODE"),
    Step::TypeName(0, ""),
    Step::Set(Name::Field(ObjId(2), 0), Row::Str("c")),
    Step::Get(Name::Field(ObjId(2), 0), Row::Str("c")),
    Step::Get(Name::Field(ObjId(2), 1), Row::Data(1)),
    Step::Get(Name::Field(ObjId(1), 0), Row::Str("a")),
    // nothing changes where the number is a table's, nor by another part's name
    Step::Set(Name::Field(ObjId(0), 0), Row::Int(1)),
    Step::Set(Name::Elem(ObjId(1), 0), Row::Int(1)),
    Step::Set(Name::Entry(ObjId(1), 0), Row::Int(1)),
    Step::Get(Name::Field(ObjId(1), 0), Row::Str("a")),
    Step::Element(1, &[1], Err(1)),
    Step::Prototype(1, Err(1)),
    Step::Find(1, Row::Int(1), Err(1)),
    Step::Entry(1, Row::Int(1), Err(1)),
    Step::TableToArray(1, Err(1)),
    // the next array has the number behind those of the objects
    Step::NewArray("2", Row::Data(2), Ok(4)),
    Step::Get(Name::Elem(ObjId(4), 1), Row::Data(2)),
];

const TYPES_AGAIN: &[Step] = &[
    Step::DefineData("N(A,B)", Ok(())),
    Step::NewData(0, &[Row::Int(1), Row::Int(2)], Ok(0)),
    Step::DefineData("N(B)", Ok(())),
    Step::Constructor(9, Some(1)),
    Step::NewData(1, &[Row::Int(3), Row::Int(4)], Ok(1)),
    // the old object keeps its type, and A stays a field
    Step::Field(0, 10, Some(0)),
    Step::Field(0, 11, Some(1)),
    Step::Field(1, 10, None),
    Step::Field(1, 11, Some(0)),
    Step::IsField(10, true),
    Step::Get(Name::Field(ObjId(0), 1), Row::Int(2)),
    Step::Get(Name::Field(ObjId(1), 0), Row::Int(3)),
    Step::Get(Name::Field(ObjId(1), 1), Row::Str("")),
    Step::NewData(0, &[], Ok(2)),
    Step::Field(2, 10, Some(0)),
    Step::DefineData("M(N)", Ok(())),
    Step::Constructor(9, None),
    Step::IsField(9, true),
    Step::TypeName(0, "N"),
    Step::TypeName(1, "N"),
    Step::NewData(2, &[], Ok(3)),
    Step::TypeName(3, "M"),
];

const LAST_MADE: &[Step] = &[
    Step::Define("F(A)", "", Ok(())),
    Step::DefineData("F(A)", Ok(())),
    Step::Definition(9, None),
    Step::Constructor(9, Some(0)),
    Step::IsField(10, true),
    Step::Enter(9, &[Row::Int(1)], Ok(())),
    Step::Level(0),
    // DEFINE takes the function's name alone
    Step::Define("F(A)", "", Ok(())),
    Step::Constructor(9, None),
    Step::Definition(9, Some(("F", &[SymId(10)], &[]))),
    Step::IsField(10, true),
    Step::Define("A()", "", Ok(())),
    Step::IsField(10, false),
    Step::DefineData("G(F,A)", Ok(())),
    Step::Definition(9, None),
    Step::Definition(10, None),
    Step::IsField(9, true),
    Step::IsField(10, true),
    Step::Constructor(11, Some(1)),
];

const KEYS: &[Step] = &[
    Step::DefineData("N(A)", Ok(())),
    Step::NewTable(Ok(0)),
    Step::NewData(0, &[Row::Int(1)], Ok(1)),
    Step::NewData(0, &[Row::Int(1)], Ok(2)),
    Step::Entry(0, Row::Data(1), Ok(0)),
    // an object that is equal in its fields is another key
    Step::Find(0, Row::Data(2), Ok(None)),
    Step::Entry(0, Row::Data(2), Ok(1)),
    Step::Find(0, Row::Data(1), Ok(Some(0))),
    Step::Find(0, Row::Table(1), Ok(None)),
    Step::Find(0, Row::Array(1), Ok(None)),
    Step::Find(0, Row::Int(1), Ok(None)),
    // it is the same key where its field has changed
    Step::Set(Name::Field(ObjId(1), 0), Row::Int(5)),
    Step::Find(0, Row::Data(1), Ok(Some(0))),
    // the name of a field is a key of its own
    Step::Entry(0, Row::Name(Name::Field(ObjId(1), 0)), Ok(2)),
    Step::Find(0, Row::Name(Name::Field(ObjId(2), 0)), Ok(None)),
    Step::Find(0, Row::Name(Name::Elem(ObjId(1), 0)), Ok(None)),
    Step::Find(0, Row::Name(Name::Entry(ObjId(1), 0)), Ok(None)),
    Step::Find(0, Row::Name(Name::Field(ObjId(1), 0)), Ok(Some(2))),
];

/// Calls of a new store each.
const STORES: [(&str, &[Step]); 7] = [
    ("makes types", TYPES),
    ("judges prototypes", PROTOTYPES),
    ("counts names", NAMES),
    ("makes objects", OBJECTS),
    ("makes types again", TYPES_AGAIN),
    ("names are what was made last", LAST_MADE),
    ("objects are keys", KEYS),
];

#[test]
fn answers(rt: HostRuntime) -> Result<(), Fail> {
    check(&rt, rt.alloc(), &STORES)
}
