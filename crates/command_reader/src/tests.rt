//! Each command in its spellings, and texts that are none.

use crate::reader::command_of_text;
use dby_types::number::Level::{Cs, Rr, Rs, Ur};
use sql_commands::command::Command;
use sql_commands::command::Command::{Autocommit, Commit, Rollback, SetIsolation};
use std::test::Fail;

#[test]
fn reads_commands(rt: HostRuntime) -> Result<(), Fail> {
    let cases: [(&str, Option<Command>); 18] = [
        ("commit", Some(Commit)),
        ("COMMIT WORK", Some(Commit)),
        ("Rollback", Some(Rollback)),
        ("rollback -- all\n work", Some(Rollback)),
        ("autocommit off", Some(Autocommit(false))),
        ("AUTOCOMMIT ON", Some(Autocommit(true))),
        ("SET ISOLATION UR", Some(SetIsolation(Ur))),
        ("SET ISOLATION = CS", Some(SetIsolation(Cs))),
        ("SET CURRENT ISOLATION RS", Some(SetIsolation(Rs))),
        ("set current isolation=rr", Some(SetIsolation(Rr))),
        ("", None),
        ("commit now", None),
        ("commit work work", None),
        ("autocommit", None),
        ("SET ISOLATION = = CS", None),
        ("SET CURRENT CS", None),
        ("\"COMMIT\"", None),
        ("SELECT * FROM T", None),
    ];
    for (text, command) in cases {
        assert_eq!(rt; command_of_text(text.as_bytes()), command, "{text}");
    }
    Ok(())
}
