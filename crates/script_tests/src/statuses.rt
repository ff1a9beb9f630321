use run_status::Status;
use script_read::{ScriptErr, ScriptKind};
use std::test::Fail;

#[test]
fn texts_of_statuses(rt: HostRuntime) -> Result<(), Fail> {
    let refused = |line, kind| Status::Script(ScriptErr { line, kind });
    let table = [
        (refused(1, ScriptKind::Grammar), "line 1: grammar"),
        (refused(20, ScriptKind::Sheet), "line 20: sheet"),
        (refused(3, ScriptKind::Site), "line 3: site"),
        (refused(4, ScriptKind::NotLive), "line 4: not live"),
        (refused(5, ScriptKind::Unended), "line 5: unended"),
        (Status::ReadFault, "read fault"),
        (Status::WriteFault, "write fault"),
        (Status::Memory, "no memory"),
        (Status::Usage, "usage"),
        (Status::TooLong(1_048_577), "line 1048577: too long"),
    ];
    for (status, text) in table {
        let told = format!(in rt.alloc(); "{status}")?;
        assert_eq!(rt; told.as_str(), text);
    }
    Ok(())
}
