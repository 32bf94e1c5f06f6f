//! Two scripts by a plan over a list store, without tables: what both are told.

ghost use Rattle.std.specs.Prelude.{◌≡◌, IfOk, length};

use crate::walk::{Walked, walk};
use dby_types::seq::Seq;
use dby_types::value::Txt;
use device_mem::sink::MemSink;
use journal_text::outbox::Outbox;
use list_store::lists::ListStore;
use session_engine::engine::Engine;
use session_text::sessions::put_sessions;
use std::alloc::{AllocError, Global};
use std::collections::VecDeque;
use std::test::Fail;
use step_plan::plan::read_plan;

const FIRST: &str =
    "autocommit off; SELECT * FROM T; commit; SET ISOLATION RR; INSERT INTO T VALUES (1); rollback; NONE";

const SECOND: &str = "SET ISOLATION UR; SELECT * FROM T; SELECT * FROM T";

const PLAN: &str =
    "1 999999\n2 999999\n1 999999\n1 999999\n2 999999\n1 999999\n1 999999\n1 999999\n1 999999\n1 999999\n2 1\n0 5\n";

const TEXT: &str =
    "## connection 1\nDONE\nERROR 42X05\nCOMMITTED\nDONE\nERROR 42X05\nROLLED BACK\nERROR 42X01\n## connection 2\nERROR PRL00\nERROR 42X05\nNOT ANSWERED\n";

fn text(alloc: Global, bytes: &str) -> Result<Txt, AllocError>
    ensures { IfOk result (λ t. t ≡ bytes.now) }
{
    let mut copy = Vec::new(alloc);
    copy.extend_from_slice(bytes.as_bytes())?;
    Ok(Seq::from_vec(copy))
}

fn engine(alloc: Global) -> Result<Engine<ListStore>, AllocError>
    ensures { IfOk result (λ e. length e.0 ≡ 2) }
{
    let mut scripts = VecDeque::new(alloc);
    scripts.push_back(text(alloc, FIRST)?)?;
    scripts.push_back(text(alloc, SECOND)?)?;
    Engine::open(alloc, ListStore::new(alloc), &mut scripts)
}

#[test]
fn walks_two_scripts(rt: HostRuntime) -> Result<(), Fail> {
    let mut engine = engine(rt.alloc())?;
    let plan = read_plan(rt.alloc(), PLAN.as_bytes(), 2);
    assert!(rt; plan.is_ok());
    if let Ok(plan) = plan {
        assert_eq!(rt; walk(&mut engine, &plan), Walked::Whole);
        let mut sink = MemSink::new(rt.alloc());
        let mut out = Outbox::new();
        put_sessions(&mut out, &mut sink, 2, engine.journal());
        assert!(rt; out.finish(&mut sink));
        assert_eq!(rt; sink.bytes(), TEXT.as_bytes());
    }
    Ok(())
}
