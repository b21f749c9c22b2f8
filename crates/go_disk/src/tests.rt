// Disks at small cases worked out by hand, each through its trait's bound, and the adapter on a real file.

use super::*;
use go_text::Text;
use std::alloc::Global;
use std::fs;
use std::os::unix::fs::symlink;
use std::test::Fail;

// What a read of five bytes from a place on gives, or question marks where it fails.
fn five_from<D: Disk>(disk: &mut D, at: u64) -> [u8; 5] {
    let mut out = [0; 5];
    match disk.read(at, &mut out) {
        Ok(()) => out,
        Err(_) => *b"?????",
    }
}

// Whether a write succeeds.
fn writes<D: Disk>(disk: &mut D, at: u64, text: &str) -> bool {
    disk.write_at(at, text.as_bytes()).is_ok()
}

// Whether a sync succeeds.
fn syncs<D: Disk>(disk: &mut D) -> bool {
    disk.sync().is_ok()
}

// The length, if it can be told.
fn length<D: Disk>(disk: &mut D) -> Option<u64> {
    disk.len().ok()
}

// The image that a disk chooses for a pick.
fn image_of(alloc: Global, disk: &MemDisk, pick: u64) -> Result<Vec<u8>, Fail> {
    let mut out = Vec::from_slice(alloc, b"before")?;
    disk.image(pick, &mut out)?;
    Ok(out)
}

// Whether an image of `abcdef` differs in the written range `cd` and behind the end alone, and has at most nine bytes.
fn differs_in_range_alone(image: &[u8]) -> bool {
    image.len() <= 9 && image.starts_with(b"ab") && image.get(4..6) == Some(b"ef".as_slice())
}

#[test]
fn memory_disk_answers_and_refuses_bad_ranges(rt: HostRuntime) -> Result<(), Fail> {
    let mut disk = MemDisk::new(rt.alloc(), b"abcde", 99)?;
    assert_eq!(rt; length(&mut disk), Some(5));
    assert_eq!(rt; five_from(&mut disk, 0), *b"abcde");
    assert_eq!(rt; five_from(&mut disk, 1), *b"?????");
    assert_eq!(rt; five_from(&mut disk, u64::MAX), *b"?????");
    assert!(rt; !writes(&mut disk, 6, ""));
    assert!(rt; !writes(&mut disk, u64::MAX, "xy"));
    assert!(rt; writes(&mut disk, 3, "XYZ"));
    assert!(rt; writes(&mut disk, 0, "o"));
    assert!(rt; writes(&mut disk, 6, "end"));
    assert!(rt; syncs(&mut disk));
    assert_eq!(rt; length(&mut disk), Some(9));
    assert_eq!(rt; five_from(&mut disk, 0), *b"obcXY");
    assert_eq!(rt; five_from(&mut disk, 4), *b"YZend");
    Ok(())
}

#[test]
fn call_over_the_room_changes_nothing(rt: HostRuntime) -> Result<(), Fail> {
    let mut disk = MemDisk::failing(rt.alloc(), b"", &[2], 7)?;
    assert!(rt; writes(&mut disk, 0, "abc"));
    assert!(rt; !writes(&mut disk, 3, "def"));
    assert_eq!(rt; length(&mut disk), Some(3));
    assert_eq!(rt; length(&mut disk), None, "the call of number 2");
    assert!(rt; syncs(&mut disk));
    assert!(rt; !syncs(&mut disk));
    assert!(rt; !writes(&mut disk, 0, ""));
    assert_eq!(rt;
        image_of(rt.alloc(), &disk, 1)?.as_slice(),
        b"abc".as_slice()
    );
    Ok(())
}

#[test]
fn listed_calls_fail_and_no_others(rt: HostRuntime) -> Result<(), Fail> {
    let mut disk = MemDisk::failing(rt.alloc(), b"abcde", &[4, 1, 2], 99)?;
    assert_eq!(rt; length(&mut disk), Some(5));
    assert_eq!(rt; five_from(&mut disk, 0), *b"?????");
    assert!(rt; !writes(&mut disk, 0, "A"));
    assert_eq!(rt; five_from(&mut disk, 0), *b"abcde");
    assert!(rt; !syncs(&mut disk));
    assert!(rt; syncs(&mut disk));
    Ok(())
}

#[test]
fn stopped_disk_fails_from_its_call_on(rt: HostRuntime) -> Result<(), Fail> {
    for after in 0..4 {
        let mut disk = MemDisk::stopping(rt.alloc(), b"", after, 99)?;
        for number in 0..4 {
            assert_eq!(rt; syncs(&mut disk), number < after, "{number} of {after}");
        }
    }
    Ok(())
}

#[test]
fn images_differ_in_written_ranges_alone(rt: HostRuntime) -> Result<(), Fail> {
    let alloc = rt.alloc();
    let mut disk = MemDisk::new(alloc, b"abcdef", 99)?;
    assert!(rt; writes(&mut disk, 2, "XY") && writes(&mut disk, 6, "ghi"));
    assert_eq!(rt; image_of(alloc, &disk, 0)?.as_slice(), b"abcdef".as_slice());
    assert_eq!(rt;
        image_of(alloc, &disk, 1)?.as_slice(),
        b"abXYefghi".as_slice()
    );
    let mut is_torn = false;
    for pick in 2..100 {
        let image = image_of(alloc, &disk, pick)?;
        assert!(rt; differs_in_range_alone(&image), "at {pick}");
        is_torn |= !image.starts_with(b"abcd") && !image.starts_with(b"abXY");
    }
    assert!(rt; is_torn);
    assert!(rt; syncs(&mut disk));
    for pick in 0..9 {
        assert_eq!(rt;
            image_of(alloc, &disk, pick)?.as_slice(),
            b"abXYefghi".as_slice()
        );
    }
    Ok(())
}

#[test]
fn failed_write_may_tear_and_failed_sync_keeps_the_base(rt: HostRuntime) -> Result<(), Fail> {
    let alloc = rt.alloc();
    let mut disk = MemDisk::failing(alloc, b"abcdef", &[0, 1], 99)?;
    assert!(rt; !writes(&mut disk, 2, "XY") && !syncs(&mut disk));
    assert_eq!(rt; image_of(alloc, &disk, 0)?.as_slice(), b"abcdef".as_slice());
    assert_eq!(rt; image_of(alloc, &disk, 1)?.as_slice(), b"abcdef".as_slice());
    let mut is_torn = false;
    for pick in 2..100 {
        let image = image_of(alloc, &disk, pick)?;
        assert!(rt; differs_in_range_alone(&image), "at {pick}");
        is_torn |= !image.starts_with(b"abcd");
    }
    assert!(rt; is_torn);
    Ok(())
}

#[test]
fn syncs_and_blunders_are_counted(rt: HostRuntime) -> Result<(), Fail> {
    let mut disk = MemDisk::failing(rt.alloc(), b"abcde", &[6], 12)?;
    assert_eq!(rt; five_from(&mut disk, 0), *b"abcde");
    assert!(rt; writes(&mut disk, 5, "f") && syncs(&mut disk));
    assert_eq!(rt; (disk.sync_count(), disk.blunders()), (1, 0));
    assert_eq!(rt; five_from(&mut disk, 2), *b"?????");
    assert_eq!(rt; (disk.sync_count(), disk.blunders()), (1, 1));
    assert!(rt; !writes(&mut disk, 7, ""));
    assert_eq!(rt; (disk.sync_count(), disk.blunders()), (1, 2));
    assert!(rt;
        syncs(&mut disk) && !syncs(&mut disk),
        "the call of number 6"
    );
    assert_eq!(rt; (disk.sync_count(), disk.blunders()), (2, 2));
    assert!(rt; !writes(&mut disk, 6, "ghijk"), "over the room");
    assert_eq!(rt; (disk.sync_count(), disk.blunders()), (2, 2));
    assert!(rt; !writes(&mut disk, 7, "hijkl"), "over the room");
    assert_eq!(rt; (disk.sync_count(), disk.blunders()), (2, 3));
    Ok(())
}

// The disk of the real file of this name.
fn file<'a>(rt: &'a HostRuntime, name: &str) -> Result<FileDisk<'a, HostRuntime>, Fail> {
    Ok(FileDisk::named(rt, Text::of(rt.alloc(), name)?))
}

#[test]
fn file_is_made_written_and_read(rt: HostRuntime) -> Result<(), Fail> {
    let mut disk = file(&rt, "file.log")?;
    assert_eq!(rt; length(&mut disk), Some(0));
    assert!(rt; !writes(&mut disk, 1, "x"));
    assert!(rt; writes(&mut disk, 0, "hello"));
    assert!(rt; writes(&mut disk, 5, " world") && writes(&mut disk, 0, "J"));
    assert!(rt; syncs(&mut disk));
    assert_eq!(rt; length(&mut disk), Some(11));
    assert_eq!(rt; five_from(&mut disk, 6), *b"world");
    assert_eq!(rt; five_from(&mut disk, 7), *b"?????");
    drop(disk);
    let mut again = file(&rt, "./file.log")?;
    assert_eq!(rt; five_from(&mut again, 0), *b"Jello");
    fs::remove_file(&rt, "file.log")?;
    Ok(())
}

#[test]
fn second_disk_on_a_file_fails_while_the_first_lives(rt: HostRuntime) -> Result<(), Fail> {
    let mut first = file(&rt, "file.log")?;
    assert!(rt; writes(&mut first, 0, "first"));
    let mut second = file(&rt, "./file.log")?;
    assert_eq!(rt; length(&mut second), None);
    assert!(rt; !writes(&mut second, 0, "other") && !syncs(&mut second));
    assert_eq!(rt; five_from(&mut second, 0), *b"?????");
    assert_eq!(rt; five_from(&mut first, 0), *b"first");
    drop(first);
    assert_eq!(rt; five_from(&mut second, 0), *b"first");
    assert!(rt; writes(&mut second, 5, "!") && syncs(&mut second));
    fs::remove_file(&rt, "file.log")?;
    Ok(())
}

#[test]
fn file_of_a_dangling_link_is_made_where_it_points(rt: HostRuntime) -> Result<(), Fail> {
    fs::create_dir(&rt, "far")?;
    symlink(&rt, "far/file.log", "near.log")?;
    let mut disk = file(&rt, "near.log")?;
    assert!(rt; writes(&mut disk, 0, "there") && syncs(&mut disk));
    drop(disk);
    let mut made = file(&rt, "far/file.log")?;
    assert_eq!(rt; five_from(&mut made, 0), *b"there");
    let mut linked = file(&rt, "near.log")?;
    assert_eq!(rt; length(&mut linked), None, "the same file is locked");
    fs::remove_file(&rt, "near.log")?;
    fs::remove_dir_all(&rt, "far")?;
    Ok(())
}

#[test]
fn after_a_failed_sync_each_call_fails_and_writes_nothing(rt: HostRuntime) -> Result<(), Fail> {
    let mut disk = file(&rt, "file.log")?;
    assert!(rt; writes(&mut disk, 0, "hello") && syncs(&mut disk));
    disk.lose();
    assert_eq!(rt; length(&mut disk), None);
    assert_eq!(rt; five_from(&mut disk, 0), *b"?????");
    assert!(rt; !writes(&mut disk, 0, "other") && !syncs(&mut disk));
    assert!(rt; !writes(&mut disk, 5, "more") && !syncs(&mut disk));
    let mut other = file(&rt, "file.log")?;
    assert_eq!(rt; length(&mut other), None, "the lock is held");
    drop(disk);
    assert_eq!(rt; length(&mut other), Some(5));
    assert_eq!(rt; five_from(&mut other, 0), *b"hello");
    fs::remove_file(&rt, "file.log")?;
    Ok(())
}

#[test]
fn file_that_cannot_be_opened_is_a_fault(rt: HostRuntime) -> Result<(), Fail> {
    let mut disk = file(&rt, "absent/file.log")?;
    assert_eq!(rt; length(&mut disk), None);
    assert_eq!(rt; five_from(&mut disk, 0), *b"?????");
    assert!(rt; !writes(&mut disk, 0, "x") && !syncs(&mut disk));
    fs::create_dir(&rt, "absent")?;
    assert_eq!(rt; length(&mut disk), Some(0), "a later call opens it");
    fs::remove_dir_all(&rt, "absent")?;
    Ok(())
}
