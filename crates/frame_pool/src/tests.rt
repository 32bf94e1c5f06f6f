//! Two frames.

use crate::pool::Pool;
use std::alloc::AllocError;

#[test]
fn two_frames(rt: HostRuntime) -> Result<(), AllocError> {
    let mut pool = Pool::new(rt.alloc(), 2)?;
    if let Some(frame) = pool.take() {
        assert!(rt; pool.bytes(&frame)[0] == 0);
        pool.give(frame);
    }
    assert!(rt; pool.take().is_some());
    assert!(rt; pool.take().is_some());
    assert!(rt; pool.take().is_none());
    Ok(())
}
