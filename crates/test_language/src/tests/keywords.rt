//! Keywords.
use super::asking::Ways;
use super::rows::check_blocks;
use std::test::Fail;

const VALUES_OF_KEYWORDS: &str = r"
--anchor ; &ANCHOR ; 1 => way 0 1\nexhausted\n
--anchor ; &ANCHOR + 1 ; 2 => way 0 1\nexhausted\n
--anchor ; &TRIM ; 0 => way 0 1\nexhausted\n
--anchor ; &STLIMIT ; 1000000 => way 0 7\nexhausted\n
--anchor ; &STCOUNT ; 0 => way 0 1\nexhausted\n
--anchor ; &STNO ; 0 => way 0 1\nexhausted\n
--anchor ; &FNCLEVEL ; 0 => way 0 1\nexhausted\n
--anchor ; &FULLSCAN ; 1 => way 0 1\nexhausted\n
--anchor ; &MAXLNGTH ; 1000000 => way 0 7\nexhausted\n
--anchor ; SPAN(&ALPHABET) ; A9\s => way 0 3\nexhausted\n
--anchor ; NOTANY(&ALPHABET) ; A => exhausted\n
&ANCHOR 'A' ; 0A => way 0 2\nexhausted\n
";

/// Other names are no keywords, and a keyword has no name.
const ERRORS_OF_KEYWORDS: &str = r"
&FOO => status 1: snobol4: error 14\n
&anchor => status 1: snobol4: error 14\n
&ANCHORS => status 1: snobol4: error 14\n
~&FOO => status 1: snobol4: error 14\n
LEN(&A) => status 1: snobol4: error 14\n
@&ANCHOR => status 1: snobol4: error 15\n
.&ANCHOR => status 1: snobol4: error 15\n
LEN(1) . &ANCHOR => status 1: snobol4: error 15\n
LEN(1) $ &FOO => status 1: snobol4: error 15\n
";

#[test]
fn rows(rt: HostRuntime) -> Result<(), Fail> {
    check_blocks::<Ways, _>(&rt, &[VALUES_OF_KEYWORDS, ERRORS_OF_KEYWORDS])
}
