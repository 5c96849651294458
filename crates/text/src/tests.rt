// The lines and the refusals, byte for byte.

use crate::faults::TextFault;
use crate::lines::{head_line, plan_line, refusal_line};
use std::test::Fail;

// The line, and then nothing but the dots that were there.
fn shows(buffer: &[u8], line: &[u8]) -> bool {
    buffer
        .strip_prefix(line)
        .is_some_and(|rest| rest.iter().all(|b| *b == b'.'))
}

#[test]
fn heads(rt: HostRuntime) -> Result<(), Fail> {
    let mut buffer = [b'.'; 64];
    assert_eq!(rt; head_line(&mut buffer, 12, false)?, 9);
    assert!(rt; shows(&buffer, b"plans 12\n"));
    let mut buffer = [b'.'; 70];
    assert_eq!(rt; head_line(&mut buffer, 4294967295, true)?, 22);
    assert!(rt; shows(&buffer, b"plans 4294967295 over\n"));
    Ok(())
}

#[test]
fn plans(rt: HostRuntime) -> Result<(), Fail> {
    let mut buffer = [b'.'; 64];
    assert_eq!(rt; plan_line(&mut buffer, 0)?, 2);
    assert!(rt; shows(&buffer, b"-\n"));
    assert_eq!(rt; plan_line(&mut buffer, 5)?, 4);
    assert!(rt; shows(&buffer, b"1 3\n"));
    assert_eq!(rt; plan_line(&mut buffer, 16777215)?, 63);
    assert!(rt;
        shows(
            &buffer,
            b"1 2 3 4 5 6 7 8 9 10 11 12 13 14 15 16 17 18 19 20 21 22 23 24\n",
        )
    );
    Ok(())
}

#[test]
fn refusals(rt: HostRuntime) -> Result<(), Fail> {
    let mut buffer = [b'.'; 64];
    assert_eq!(rt; refusal_line(&mut buffer, 2, 7, 8)?, 10);
    assert!(rt; shows(&buffer, b"refused 2\n"));
    assert_eq!(rt; refusal_line(&mut buffer, 4294967295, 7, 8)?, 19);
    assert!(rt; shows(&buffer, b"refused 4294967295\n"));
    assert_eq!(rt; refusal_line(&mut buffer, 3, 4294967295, 0)?, 35);
    assert!(rt; shows(&buffer, b"refused 3 record 4294967295 byte 0\n"));
    Ok(())
}

#[test]
fn refused(rt: HostRuntime) {
    let mut short = [b'.'; 63];
    assert_eq!(rt; head_line(&mut short, 1, false), Err(TextFault::Room));
    assert_eq!(rt; refusal_line(&mut short, 1, 0, 0), Err(TextFault::Room));
    assert_eq!(rt; plan_line(&mut short, 1), Err(TextFault::Room));
    assert_eq!(rt;
        plan_line(&mut short, 3 * 16777216 + 1),
        Err(TextFault::Outside { test: 25 })
    );
    assert_eq!(rt;
        plan_line(&mut short, 2147483648),
        Err(TextFault::Outside { test: 32 })
    );
    assert!(rt; shows(&short, b""));
}
