//! Programs that are checked: the line on standard error, and the status.
use super::asking::{Checks, Commands};
use super::rows::{Question, check_blocks, check_rows};
use std::test::Fail;

const PROGRAMS_THAT_ARE_CHECKED: &str = r"
 => status 2: snobol4: no END\n
 X = 'A\nEND\n => status 2: snobol4: syntax 1 at line 1\n
L X = 1\nL X = 2\nEND\n => status 2: snobol4: duplicate label at line 2\n
+ X = 1\nEND\n => status 2: snobol4: syntax 3 at line 1\n
 X = 9223372036854775808\nEND\n => status 2: snobol4: syntax 2 at line 1\n
A X = 1\nEND B\n => status 2: snobol4: syntax 4 at line 2\n
L OUTPUT = INPUT :S(L)F(END)\nEND\n => status 0
 X = F (N)\nEND\n => status 0
";

const FILES_THAT_ARE_NOT_READ: &str = r"
snobol4 check f.sno => status 3: snobol4: cannot read f.sno\n
snobol4 run f.sno => status 3: snobol4: cannot read f.sno\n
";

const DEEP_PROGRAMS: &str = r"
* deep\n Y = \<41:(\>\nEND\n => status 2: snobol4: too large at line 2\n
";

#[test]
fn longest_program(rt: HostRuntime) -> Result<(), Fail> {
    let longest: Vec<u8> = vec![in rt.alloc(); b'\n'; 4_000_000]?;
    let answer = Checks::answer(rt.alloc(), &longest)?;
    assert_eq!(rt; answer.as_str(), "status 2: snobol4: no END\n");
    Ok(())
}

#[test]
fn too_long_a_program(rt: HostRuntime) -> Result<(), Fail> {
    let too_long: Vec<u8> = vec![in rt.alloc(); b'\n'; 4_000_001]?;
    let answer = Checks::answer(rt.alloc(), &too_long)?;
    assert_eq!(rt; answer.as_str(), "status 2: snobol4: too large at line 0\n");
    Ok(())
}

#[test]
fn rows(rt: HostRuntime) -> Result<(), Fail> {
    check_blocks::<Checks, _>(&rt, &[PROGRAMS_THAT_ARE_CHECKED, DEEP_PROGRAMS])?;
    check_rows::<Commands, _>(&rt, FILES_THAT_ARE_NOT_READ)
}
