use std::fs;
use std::test::Fail;
use up_disk::{Disk, FileDisk};

const NAME: &str = "up_disk_trials.image";

#[test]
fn a_file_is_a_disk(rt: HostRuntime) -> Result<(), Fail> {
    let _ = fs::remove_file(&rt, NAME);
    let mut out = [9; 4096];
    let mut disk = FileDisk::open(&rt, NAME, 3)?;
    // the missing file was made empty, and reads as zeros
    assert_eq!(rt; fs::metadata(&rt, NAME)?.len(), 0);
    assert!(rt; disk.read_block(2, &mut out).is_ok());
    assert!(rt; out == [0; 4096]);
    // a file that ends within a block
    fs::write(&rt, NAME, b"abc".as_slice())?;
    assert!(rt; disk.read_block(0, &mut out).is_ok());
    assert!(rt; out.starts_with(b"abc"));
    assert!(rt; out[3..] == [0; 4093]);
    assert!(rt; disk.write_block(1, &[5; 4096]).is_ok());
    assert!(rt; disk.sync().is_ok());
    drop(disk);
    // what was written is found again
    assert_eq!(rt; fs::metadata(&rt, NAME)?.len(), 8192);
    let mut again = FileDisk::open(&rt, NAME, 3)?;
    assert!(rt; again.read_block(1, &mut out).is_ok());
    assert!(rt; out == [5; 4096]);
    fs::remove_file(&rt, NAME)?;
    // a folder is no disk
    assert!(rt; FileDisk::open(&rt, ".", 3).is_err());
    Ok(())
}
