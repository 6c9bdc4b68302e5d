//! Choices whose first bytes are known: starts and cursors at which each of their sides fails are passed, with their
//! steps.
use super::driver::Told;
use super::forms::{Form, table_of};
use super::matches::Matches;
use super::notation::forms_of;
use super::reference::search_events;
use super::rows::check_blocks;
use super::searches::{Search, all_events, check_same, check_stacks, table_of_words};
use sno_match::SharedGoals;
use sno_value::PatId;
use std::alloc::Global;
use std::process::Abort;
use std::test::Fail;

/// They are 'A' | 'B', whose search takes four steps in vain: the choice, 'A', going on to the other side, and 'B'.
const TWO_LETTERS: &str = r"
floating 1000 CCB: TEXT:A TEXT:B |:0,1 => way 2 3 at 14; exhausted at 19;
floating 19 CCB: TEXT:A TEXT:B |:0,1 => way 2 3 at 14; exhausted at 19;
floating 18 CCB: TEXT:A TEXT:B |:0,1 => way 2 3 at 14; limit at 18;
floating 15 CCB: TEXT:A TEXT:B |:0,1 => way 2 3 at 14; limit at 15;
floating 14 CCB: TEXT:A TEXT:B |:0,1 => way 2 3 at 14; limit at 14;
floating 13 CCB: TEXT:A TEXT:B |:0,1 => limit at 13;
floating 10 CCB: TEXT:A TEXT:B |:0,1 => limit at 10;
floating 9 CCB: TEXT:A TEXT:B |:0,1 => limit at 9;
floating 8 CCB: TEXT:A TEXT:B |:0,1 => limit at 8;
floating 5 CCB: TEXT:A TEXT:B |:0,1 => limit at 5;
floating 4 CCB: TEXT:A TEXT:B |:0,1 => limit at 4;
anchored 1000 CCB: TEXT:A TEXT:B |:0,1 => exhausted at 4;
anchored 4 CCB: TEXT:A TEXT:B |:0,1 => exhausted at 4;
anchored 3 CCB: TEXT:A TEXT:B |:0,1 => limit at 3;
floating 1000 : TEXT:A TEXT:B |:0,1 => exhausted at 4;
floating 4 : TEXT:A TEXT:B |:0,1 => exhausted at 4;
floating 3 : TEXT:A TEXT:B |:0,1 => limit at 3;
";

/// They are 'AB' | 'AC', also where both fail behind the first byte; 'ABC' | 'AC', where the subject ends inside a
/// word; 'XY' | ANY('AB') | SPAN('BC'); 'A' | ('B' | 'C'); ('A' | 'B') . X; ('A' | 'B') $ X; ('A' | 'B') 'C'; and 'A' |
/// '', which begins with any byte.
const CHOICES: &str = r"
floating 1000 AC: TEXT:AB TEXT:AC |:0,1 => way 0 2 at 4; exhausted at 14;
floating 1000 AAD: TEXT:AB TEXT:AC |:0,1 => exhausted at 19;
floating 18 AAD: TEXT:AB TEXT:AC |:0,1 => limit at 18;
floating 10 AAD: TEXT:AB TEXT:AC |:0,1 => limit at 10;
floating 9 AAD: TEXT:AB TEXT:AC |:0,1 => limit at 9;
floating 5 AAD: TEXT:AB TEXT:AC |:0,1 => limit at 5;
floating 4 AAD: TEXT:AB TEXT:AC |:0,1 => limit at 4;
floating 1000 CAB: TEXT:ABC TEXT:AC |:0,1 => exhausted at 19;
floating 1000 DDCB: TEXT:XY ANY:AB |:0,1 SPAN:BC |:2,3 => way 2 4 at 23; way 3 4 at 29; way 3 4 at 31; exhausted at 39;
floating 1000 DC: TEXT:A TEXT:B TEXT:C |:1,2 |:0,3 => way 1 2 at 15; exhausted at 23;
floating 1000 CA: TEXT:A TEXT:B |:0,1 .:2,7 => way 1 2 at 10 with 7 1 2; exhausted at 18 with 7 1 2;
floating 1000 CA: TEXT:A TEXT:B |:0,1 $:2,7 => assign 7 1 2 at 10; way 1 2 at 10; exhausted at 18;
floating 1000 DBC: TEXT:A TEXT:B |:0,1 TEXT:C &:2,3 => way 1 3 at 12; exhausted at 24;
floating 1000 B: TEXT:A TEXT: |:0,1 => way 0 0 at 4; way 1 1 at 9; exhausted at 9;
";

/// They are 'AB' | 'AC', 'AB' | ANY('C') | 'AD' and SPAN('D') | 'AC', each behind starts at which one of their bytes stands
/// and each side fails.
const STARTS_IN_VAIN: &str = r"
floating 1000 AADAADAC: TEXT:AB TEXT:AC |:0,1 => way 6 8 at 34; exhausted at 44;
floating 34 AADAADAC: TEXT:AB TEXT:AC |:0,1 => way 6 8 at 34; limit at 34;
floating 33 AADAADAC: TEXT:AB TEXT:AC |:0,1 => limit at 33;
floating 20 AADAADAC: TEXT:AB TEXT:AC |:0,1 => limit at 20;
floating 19 AADAADAC: TEXT:AB TEXT:AC |:0,1 => limit at 19;
floating 1000 AAEAEAD: TEXT:AB ANY:C |:0,1 TEXT:AD |:2,3 => way 5 7 at 47; exhausted at 63;
floating 1000 ABABD: SPAN:D TEXT:AC |:0,1 => way 4 5 at 22; exhausted at 29;
";

#[test]
fn starts_of_choices_that_fail(rt: HostRuntime) -> Result<(), Fail> {
    check_blocks::<Matches, _>(&rt, &[TWO_LETTERS, CHOICES, STARTS_IN_VAIN])
}

/// Words of which many begin with the same byte.
const WORDS: [&[u8]; 6] = [b"AX", b"BX", b"CX", b"AY", b"BY", b"CY"];

/// How many words the choices have: few, and as many as are listed, and more.
const COUNTS: [usize; 6] = [2, 3, 7, 127, 128, 130];

/// Limits within the search from a start, between two, and beyond all.
const LIMITS: [u32; 7] = [0, 3, 20, 388, 389, 1200, 100_000];

/// A choice of so many words, each to the right or to the left of those before it.
fn choice_of(alloc: Global, count: usize, is_right: bool) -> Result<Vec<Form>, Fail> {
    let mut forms = Vec::new(alloc);
    forms.push(Form::Text(WORDS[0]))?;
    let mut choice = PatId(0);
    for place in 1..count {
        let word = PatId(choice.0.saturating_add(1));
        let both = PatId(choice.0.saturating_add(2));
        forms.push(Form::Text(WORDS[place % WORDS.len()]))?;
        forms.push(if is_right {
            Form::Alt(choice, word)
        } else {
            Form::Alt(word, choice)
        })?;
        choice = both;
    }
    Ok(forms)
}

/// Compares what a match over either stack tells of a choice with the plain search.
fn compare_choice(rt: &impl Abort, alloc: Global, forms: &[Form], limit: u32) -> Result<(), Fail> {
    let s = Search {
        subject: b"ABCABZACBYCZZAXB",
        anchored: false,
        limit,
        answers: &[],
    };
    let (table, pattern) = table_of(alloc, forms)?;
    let want = search_events(
        alloc, forms, pattern, s.subject, s.anchored, s.limit, s.answers,
    )?;
    check_stacks(rt, alloc, &table, pattern, s, &want)?;
    Ok(())
}

#[test]
fn choices_of_many_words(rt: HostRuntime) -> Result<(), Fail> {
    for count in COUNTS {
        for is_right in [true, false] {
            let forms = choice_of(rt.alloc(), count, is_right)?;
            for limit in LIMITS {
                compare_choice(&rt, rt.alloc(), &forms, limit)?;
            }
        }
    }
    Ok(())
}

/// Choices whose first bytes are known, each with one in which an ANY has become a NOTANY, whose first bytes aren't. In
/// a subject of the letters A to F both primitives have the same ends from each cursor, and either is one goal: so the
/// search of both choices takes the same steps.
const PAIRS: [(&str, &str); 5] = [
    (
        "TEXT:AB TEXT:AC |:0,1 ANY:BD |:2,3",
        "TEXT:AB TEXT:AC |:0,1 NOTANY:ACEF |:2,3",
    ),
    (
        "ANY:B SPAN:DE TEXT:A |:1,2 |:0,3 .:4,7",
        "NOTANY:ACDEF SPAN:DE TEXT:A |:1,2 |:0,3 .:4,7",
    ),
    (
        "ANY:A TEXT:BC |:0,1 SPAN:D TEXT:DE |:3,4 |:2,5 $:6,7 TEXT:C &:7,8",
        "NOTANY:BCDEF TEXT:BC |:0,1 SPAN:D TEXT:DE |:3,4 |:2,5 $:6,7 TEXT:C &:7,8",
    ),
    (
        "SPAN:F TEXT:AB TEXT:AC |:1,2 ANY:BD |:3,4 &:0,5",
        "SPAN:F TEXT:AB TEXT:AC |:1,2 NOTANY:ACEF |:3,4 &:0,5",
    ),
    (
        "ANY:B TEXT:AC &:0,1 TEXT:D |:2,3",
        "NOTANY:ACDEF TEXT:AC &:0,1 TEXT:D |:2,3",
    ),
];

const SUBJECTS: [&str; 8] = [
    "",
    "A",
    "F",
    "FFA",
    "EAFAB",
    "FEFEACFDDA",
    "CCCCCCCB",
    "FBACDEC",
];

/// More steps than each search takes.
const MOST_STEPS: u32 = 160;

/// Compares what a match over either stack tells of two patterns that take the same steps, and the plain search of the
/// first.
fn compare(
    rt: &impl Abort,
    alloc: Global,
    words: (&'static str, &'static str),
    s: Search<'_>,
) -> Result<(), Fail> {
    let others = told_of(alloc, words.1, s)?;
    let forms = forms_of(alloc, words.0)?;
    compare_with(rt, alloc, &forms, s, &others)
}

/// The events of the last form for which words stand.
fn told_of(alloc: Global, words: &'static str, s: Search<'_>) -> Result<Vec<Told>, Fail> {
    let (table, pattern) = table_of_words(alloc, words)?;
    let told = all_events::<SharedGoals>(alloc, &table, pattern, s)?;
    Ok(told)
}

fn compare_with(
    rt: &impl Abort,
    alloc: Global,
    forms: &[Form],
    s: Search<'_>,
    want: &[Told],
) -> Result<(), Fail> {
    let (table, pattern) = table_of(alloc, forms)?;
    check_stacks(rt, alloc, &table, pattern, s, want)?;
    check_plain(rt, alloc, forms, pattern, s, want)
}

/// Compares what the plain search tells with the events that are wanted.
fn check_plain(
    rt: &impl Abort,
    alloc: Global,
    forms: &[Form],
    pattern: PatId,
    s: Search<'_>,
    want: &[Told],
) -> Result<(), Fail> {
    let told = search_events(
        alloc, forms, pattern, s.subject, s.anchored, s.limit, s.answers,
    )?;
    check_same(rt, &told, want);
    Ok(())
}

fn compare_limits(
    rt: &impl Abort,
    alloc: Global,
    words: (&'static str, &'static str),
    subject: &[u8],
    anchored: bool,
) -> Result<(), Fail> {
    for limit in 0..=MOST_STEPS {
        let s = Search {
            subject,
            anchored,
            limit,
            answers: &[],
        };
        compare(rt, alloc, words, s)?;
    }
    Ok(())
}

#[test]
fn each_limit_of_a_choice(rt: HostRuntime) -> Result<(), Fail> {
    for words in PAIRS {
        for subject in SUBJECTS {
            compare_limits(&rt, rt.alloc(), words, subject.as_bytes(), false)?;
            compare_limits(&rt, rt.alloc(), words, subject.as_bytes(), true)?;
        }
    }
    Ok(())
}
