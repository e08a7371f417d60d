//! A disk from attaching to detaching.

use sm_base::{Mode, Name};
use sm_refs::Attachments;
use std::test::Fail;
use uuid::Uuid;

#[test]
fn counts_follow_the_chain(rt: HostRuntime) -> Result<(), Fail> {
    let disk = Uuid::from_bytes([0x11; 16]);
    let leaf = Name::Vhd(disk);
    let base = Name::Raw(disk);
    let mut refs = Attachments::new(rt.alloc(), 4)?;
    refs.enter(disk, Mode::Rw, &[leaf]);
    assert!(rt; refs.mode(&disk) == Some(Mode::Rw));
    assert!(rt; refs.count(&base) == 0);
    refs.forked(&leaf, base);
    assert!(rt; refs.count(&leaf) == 1);
    assert!(rt; refs.count(&base) == 1);
    refs.relinked(&leaf, &base);
    assert!(rt; refs.count(&base) == 0);
    assert!(rt; refs.count(&leaf) == 1);
    assert!(rt; refs.mode(&disk).is_some());
    refs.leave(&disk, &[leaf]);
    assert!(rt; refs.mode(&disk).is_none());
    assert!(rt; refs.count(&leaf) == 0);
    Ok(())
}
