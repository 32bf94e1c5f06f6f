//! Each command in its spellings, and texts that are none.

use crate::command::{Command, read_command};
use Command::{Autocommit, Commit, Rollback, SetIsolation};
use dby_types::number::Level::{Cs, Rr, Rs, Ur};
use std::test::Fail;

#[test]
fn reads_commands(rt: HostRuntime) -> Result<(), Fail> {
    let cases: [(&str, Option<Command>); 16] = [
        ("commit", Some(Commit)),
        ("COMMIT WORK", Some(Commit)),
        ("Rollback", Some(Rollback)),
        ("rollback work", Some(Rollback)),
        ("autocommit off", Some(Autocommit(false))),
        ("AUTOCOMMIT ON", Some(Autocommit(true))),
        ("SET ISOLATION UR", Some(SetIsolation(Ur))),
        ("SET ISOLATION = CS", Some(SetIsolation(Cs))),
        ("SET CURRENT ISOLATION RS", Some(SetIsolation(Rs))),
        ("set current isolation = rr", Some(SetIsolation(Rr))),
        ("commit now", None),
        ("commit work work", None),
        ("autocommit", None),
        ("SET ISOLATION = = CS", None),
        ("SET CURRENT CS", None),
        ("\"COMMIT\"", None),
    ];
    for (text, command) in cases {
        assert_eq!(rt;
            read_command(rt.alloc(), text.as_bytes())?,
            command,
            "{text}"
        );
    }
    Ok(())
}
