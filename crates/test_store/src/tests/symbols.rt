//! Symbols and variables.
use super::{Row, Step, check};
use sno_value::{Name, ObjId, SymId};
use std::test::Fail;

const FIRST_SYMBOLS: &[Step] = &[
    Step::SymbolText(0, "ARB"),
    Step::Get(Name::Var(SymId(0)), Row::Pattern(0)),
    Step::SymbolText(6, "SUCCEED"),
    Step::Get(Name::Var(SymId(6)), Row::Pattern(6)),
    Step::SymbolText(7, "INPUT"),
    Step::Get(Name::Var(SymId(7)), Row::Str("")),
    Step::SymbolText(8, "OUTPUT"),
    Step::Get(Name::Var(SymId(8)), Row::Str("")),
    Step::SymbolText(9, ""),
];

const NUMBERED: &[Step] = &[
    Step::Symbol("", Err(6)),
    Step::Symbol("X", Ok(9)),
    Step::Symbol("x", Ok(10)),
    Step::Symbol("X", Ok(9)),
    Step::Symbol("FENCE", Ok(4)),
    Step::Symbol("A B", Ok(11)),
    Step::SymbolText(11, "A B"),
];

// the last 28 bits of their hashes are equal
const NEAR_NAMES: &[Step] = &[
    Step::Symbol("AAADOFSVX", Ok(9)),
    Step::Symbol("AAAHXLTCH", Ok(10)),
    Step::Symbol("AACHNYJPB", Ok(11)),
    Step::Set(Name::Var(SymId(9)), Row::Int(1)),
    Step::Set(Name::Var(SymId(10)), Row::Int(2)),
    Step::Symbol("AAADOFSVX", Ok(9)),
    Step::Symbol("AAAHXLTCH", Ok(10)),
    Step::Symbol("AACHNYJPB", Ok(11)),
    Step::Get(Name::Var(SymId(9)), Row::Int(1)),
    Step::Get(Name::Var(SymId(10)), Row::Int(2)),
    Step::Get(Name::Var(SymId(11)), Row::Str("")),
];

// two and two of them have the same hash, in all of its 64 bits
const EQUAL_NAMES: &[Step] = &[
    Step::Symbol("NOJDCHOMGLGDFFDA", Ok(9)),
    Step::Symbol("JPLDKEIDKHPIIHME", Ok(10)),
    Step::Symbol("LEKEPCHDLCIJJINI", Ok(11)),
    Step::Symbol("OKPILMJEIFMCLOEC", Ok(12)),
    Step::Symbol("JHDKKJECGHEMIGHA", Ok(13)),
    Step::Symbol("BDMHBPFGLLALDHBC", Ok(14)),
    Step::Set(Name::Var(SymId(10)), Row::Int(2)),
    Step::Set(Name::Var(SymId(13)), Row::Int(5)),
    Step::Symbol("NOJDCHOMGLGDFFDA", Ok(9)),
    Step::Symbol("JPLDKEIDKHPIIHME", Ok(10)),
    Step::Symbol("LEKEPCHDLCIJJINI", Ok(11)),
    Step::Symbol("OKPILMJEIFMCLOEC", Ok(12)),
    Step::Symbol("JHDKKJECGHEMIGHA", Ok(13)),
    Step::Symbol("BDMHBPFGLLALDHBC", Ok(14)),
    Step::SymbolText(10, "JPLDKEIDKHPIIHME"),
    Step::SymbolText(13, "JHDKKJECGHEMIGHA"),
    Step::SymbolText(15, ""),
    Step::Get(Name::Var(SymId(9)), Row::Str("")),
    Step::Get(Name::Var(SymId(10)), Row::Int(2)),
    Step::Get(Name::Var(SymId(12)), Row::Str("")),
    Step::Get(Name::Var(SymId(13)), Row::Int(5)),
];

const X: Name = Name::Var(SymId(9));

const Y: Name = Name::Var(SymId(10));

const NONE: Name = Name::Var(SymId(11));

const VALUES: &[Step] = &[
    Step::Symbol("X", Ok(9)),
    Step::Symbol("Y", Ok(10)),
    Step::Get(X, Row::Str("")),
    Step::Set(X, Row::Int(5)),
    Step::Set(Y, Row::Str("why")),
    Step::Set(NONE, Row::Int(1)),
    Step::Get(X, Row::Int(5)),
    Step::Get(Y, Row::Str("why")),
    Step::Get(NONE, Row::Str("")),
    Step::Get(Name::Elem(ObjId(0), 0), Row::Str("")),
    Step::Get(Name::Entry(ObjId(0), 0), Row::Str("")),
];

const KEYED: &[Step] = &[
    Step::Symbol("X", Ok(9)),
    Step::Symbol("NINE.AND_1", Ok(10)),
    Step::Symbol("ELEVEN.MANY", Ok(11)),
    Step::Symbol("A B", Ok(12)),
    Step::Set(X, Row::Int(5)),
    Step::Set(Y, Row::Str("ten letters")),
    Step::Set(NONE, Row::Str("eleven letters")),
    Step::ByKey(9, "X", Some(Row::Int(5))),
    Step::ByKey(10, "NINE.AND_1", Some(Row::Str("ten letters"))),
    Step::ByKey(8, "OUTPUT", Some(Row::Str(""))),
    // another name's key
    Step::ByKey(9, "Y", None),
    Step::ByKey(9, "x", None),
    Step::ByKey(9, "XA", None),
    Step::ByKey(10, "X", None),
    Step::ByKey(10, "NINE.AND_", None),
    Step::ByKey(10, "NINE.AND_2", None),
    Step::ByKey(10, "NINE_AND_1", None),
    Step::ByKey(10, "nINE.AND_1", None),
    Step::ByKey(13, "X", None),
    // a name of eleven bytes, or of another byte than names have in programs, has no key
    Step::ByKey(11, "ELEVEN.MANY", None),
    Step::ByKey(11, "ELEVEN.MANX", None),
    Step::ByKey(11, "", None),
    Step::ByKey(12, "A B", None),
    // INPUT is read from the reader
    Step::ByKey(7, "INPUT", None),
];

/// Calls of a new store each.
const STORES: [(&str, &[Step]); 6] = [
    ("begins with patterns", FIRST_SYMBOLS),
    ("numbers symbols", NUMBERED),
    ("names with near hashes are told apart", NEAR_NAMES),
    ("names with equal hashes are told apart", EQUAL_NAMES),
    ("keeps values", VALUES),
    ("finds values by keys", KEYED),
];

#[test]
fn answers(rt: HostRuntime) -> Result<(), Fail> {
    check(&rt, rt.alloc(), &STORES)
}
