//! Plans, well formed and malformed.

use crate::plan::{PlanError, StepLine, read_plan};
use std::test::Fail;

#[test]
fn reads_plans(rt: HostRuntime) -> Result<(), Fail> {
    let cases: [(&str, &[(usize, u32)]); 4] = [
        ("", &[]),
        ("\n\n", &[]),
        ("1 3\n2 1\n1 1\n2 1", &[(1, 3), (2, 1), (1, 1), (2, 1)]),
        ("\n0 1000000\n002 0001\n", &[(0, 1_000_000), (2, 1)]),
    ];
    for (text, lines) in cases {
        let plan = read_plan(rt.alloc(), text.as_bytes(), 2);
        assert!(rt; plan.is_ok());
        if let Ok(plan) = plan {
            assert_eq!(rt; plan.scripts(), 2);
            let mut wanted = Vec::new(rt.alloc());
            for (connection, steps) in lines {
                wanted.push(StepLine {
                    connection: *connection,
                    steps: *steps,
                })?;
            }
            assert_eq!(rt; plan.lines(), wanted.as_slice(), "{text}");
        }
    }
    Ok(())
}

#[test]
fn refuses_lines(rt: HostRuntime) -> Result<(), Fail> {
    let cases: [(&str, u64); 12] = [
        ("1 5\n1 x", 2),
        ("1 5\n\n\n3 1\n1 x", 4),
        ("1", 1),
        ("1 ", 1),
        (" 1", 1),
        ("1  1", 1),
        ("1 1 1", 1),
        ("1 0", 1),
        ("1 1000001", 1),
        ("1 1\r\n", 1),
        ("-1 1", 1),
        ("18446744073709551617 1", 1),
    ];
    for (text, line) in cases {
        let error = read_plan(rt.alloc(), text.as_bytes(), 2).err();
        assert_eq!(rt; error, Some(PlanError::Malformed { line }), "{text}");
    }
    Ok(())
}
