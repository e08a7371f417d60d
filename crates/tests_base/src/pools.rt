//! A pool from its first buffer to its last, and the bytes of a buffer.

ghost use Rattle.std.specs.Prelude.{◌≡◌, length};

use sm_pool::{Buf, Pool};
use std::test::Fail;

/// Whether a new buffer has zeros, and keeps what is written.
fn keeps(buf: &mut Buf) -> bool
    ensures { length buf.new ≡ length buf.old }
{
    if buf.bytes() != [0, 0, 0].as_slice() {
        return false;
    }
    buf.bytes_mut()[1] = b'o';
    buf.bytes() == [0, b'o', 0].as_slice()
}

#[test]
fn buffers_go_out_until_none_is_free(rt: HostRuntime) -> Result<(), Fail> {
    let mut pool = Pool::new(rt.alloc(), 1, 3)?;
    let Some(mut buf) = pool.take() else {
        return Err("a buffer".into());
    };
    let is_kept = keeps(&mut buf);
    let is_out = pool.free() == 0;
    if let Some(second) = pool.take() {
        pool.give(second);
        unreachable!()
    }
    pool.give(buf);
    assert!(rt; is_kept && is_out && pool.free() == 1);
    Ok(())
}
