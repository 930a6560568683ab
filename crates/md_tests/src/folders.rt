// A real folder with links in it, and the machine's clock.
use md_source::{Clock, Folder, ListEnd, MachineClock, ReadEnd, Tree};
use md_value::Path;
use std::alloc::Global;
use std::os::unix::fs::symlink;
use std::test::Fail;
use std::time::SystemTime;
use std::{env, fs, io};

/// A moment of 2024, before these tests were written, in seconds since 1970 in UTC.
const EARLIER: i64 = 1_710_496_800;

fn path(alloc: Global, text: &str) -> Result<Path, Fail> {
    Ok(Path::read(alloc, text)?)
}

// The paths that a listing gives, each followed by a blank, or how it ended.
fn listed<T: Tree>(alloc: Global, tree: &mut T, folder: &str) -> Result<String, Fail> {
    let mut text = String::new(alloc);
    match tree.list(alloc, &path(alloc, folder)?) {
        Ok(entries) => {
            for entry in &entries {
                text.push_str(entry.path.as_str())?;
                text.push(' ')?;
            }
        }
        Err(ListEnd::Absent) => text.push_str("absent")?,
        Err(ListEnd::Failed) => text.push_str("failed")?,
        Err(ListEnd::Memory) => text.push_str("memory")?,
    }
    Ok(text)
}

fn end_text(end: ReadEnd) -> &'static str {
    match end {
        ReadEnd::Absent => "absent",
        ReadEnd::Failed => "failed",
        ReadEnd::Memory => "memory",
    }
}

// What is read of a file, or how it ended.
fn read<T: Tree>(alloc: Global, tree: &mut T, file: &str, most: usize) -> Result<Vec<u8>, Fail> {
    match tree.read(alloc, &path(alloc, file)?, most) {
        Ok(bytes) => Ok(bytes),
        Err(end) => Ok(Vec::from_slice(alloc, end_text(end).as_bytes())?),
    }
}

// The size of a file that is found, or how it ended.
fn found<T: Tree>(alloc: Global, tree: &mut T, file: &str) -> Result<Result<u64, ReadEnd>, Fail> {
    match tree.find(alloc, &path(alloc, file)?) {
        Ok(entry) => Ok(Ok(entry.size)),
        Err(end) => Ok(Err(end)),
    }
}

#[test]
fn the_machine_has_a_clock(rt: HostRuntime) -> Result<(), Fail> {
    let now = MachineClock::new(rt).now();
    assert!(rt; matches!(now, Ok(now) if now > EARLIER));
    Ok(())
}

// Makes a folder of files, a folder with nothing in it, and links.
fn make(rt: &HostRuntime) -> io::Result<()> {
    fs::create_dir_all(rt, "docs/deep")?;
    fs::create_dir_all(rt, "empty")?;
    fs::write(rt, "a.txt", b"hello".as_slice())?;
    fs::write(rt, "docs/b.txt", b"x".as_slice())?;
    fs::write(rt, "docs/deep/c.txt", b"".as_slice())?;
    symlink(rt, "a.txt", "link.txt")?;
    symlink(rt, "docs", "linked")?;
    symlink(rt, "nowhere", "dangling")
}

#[test]
fn a_real_folder_is_read(rt: HostRuntime) -> Result<(), Fail> {
    let alloc = rt.alloc();
    let since = SystemTime::now(&rt)?.duration_since(SystemTime::UNIX_EPOCH)?;
    let place = format!(in alloc; "/tmp/md_source-{}", since.as_nanos())?;
    fs::create_dir_all(&rt, place.as_str())?;
    env::set_current_dir(&rt, place.as_str())?;
    make(&rt)?;
    let mut tree = Folder::new(rt);
    let listings = [
        ("", "a.txt docs/b.txt docs/deep/c.txt "),
        ("docs", "docs/b.txt docs/deep/c.txt "),
        ("empty", ""),
        ("linked", "absent"),
        ("linked/deep", "absent"),
        ("a.txt", "absent"),
        ("nowhere", "absent"),
    ];
    for (folder, want) in listings {
        assert_eq!(rt;
            listed(alloc, &mut tree, folder)?.as_str(),
            want,
            "in {folder}"
        );
    }
    let finds = [
        ("a.txt", Ok(5)),
        ("docs/deep/c.txt", Ok(0)),
        ("link.txt", Err(ReadEnd::Absent)),
        ("linked/b.txt", Err(ReadEnd::Absent)),
        ("a.txt/b", Err(ReadEnd::Absent)),
        ("docs", Err(ReadEnd::Absent)),
        ("", Err(ReadEnd::Absent)),
    ];
    for (file, want) in finds {
        assert_eq!(rt; found(alloc, &mut tree, file)?, want, "of {file}");
    }
    let reads = [
        ("a.txt", 9, "hello"),
        ("a.txt", 5, "hello"),
        ("a.txt", 3, "hel"),
        ("a.txt", 0, ""),
        ("linked/b.txt", 9, "absent"),
    ];
    for (file, most, want) in reads {
        assert_eq!(rt;
            read(alloc, &mut tree, file, most)?.as_slice(),
            want.as_bytes(),
            "of {file}"
        );
    }
    env::set_current_dir(&rt, "/")?;
    fs::remove_dir_all(&rt, place.as_str())?;
    Ok(())
}
