//! Stores over memory and over files, and sinks over a writer and over files, as a call uses them.

use base_files::{Kept, KeptStore, NewFile, Reason, Reasoned, is_same_file};
use base_memory::Stopped;
use base_text::store::{FetchFault, FileStore, MemoryStore, PutFailed, StdSink, fetch, put_all};
use std::io::Write;
use std::os::unix::fs::{MetadataExt, PermissionsExt, symlink};
use std::test::Fail;
use std::{fs, io};

// One pull takes a piece of 65,536 bytes, and the next one finds none left. With a byte more it is
// the third that finds none.
#[test]
fn fetches_in_pieces(rt: HostRuntime) -> Result<(), Fail> {
    let alloc = rt.alloc();
    for (size, is_whole) in [(65536, true), (65537, false)] {
        let bytes = vec![in alloc; b'-'; size]?;
        let mut store = MemoryStore::new(alloc);
        store.hold("a", bytes.as_slice())?;
        store.fail_at(3)?;
        let fetched = fetch(alloc, &mut store, "a", 65537);
        let failed = matches!(fetched, Err(Stopped::Fault(FetchFault::Failed)));
        assert!(rt; fetched.is_ok() == is_whole, "{size} bytes");
        assert!(rt; failed != is_whole, "{size} bytes");
    }
    Ok(())
}

// A writer that takes what it is given, and whose flush fails.
#[derive(Drop)]
struct Unflushed;

impl Write for Unflushed {
    fn write(&mut self, piece: &[u8]) -> io::Result<usize> {
        Ok(piece.len())
    }

    fn flush(&mut self) -> io::Result<()> {
        Err(io::Error::from(io::ErrorKind::Other))
    }
}

#[test]
fn puts_to_a_writer(rt: HostRuntime) -> Result<(), Fail> {
    let mut bytes: Vec<u8> = Vec::new(rt.alloc());
    let mut sink = StdSink::new(&mut bytes);
    assert!(rt; put_all(&mut sink, b"vine").is_ok());
    assert!(rt; bytes.as_slice() == b"vine".as_slice());
    let mut unflushed = StdSink::new(Unflushed);
    assert!(rt; put_all(&mut unflushed, b"vine") == Err(PutFailed));
    Ok(())
}

#[test]
fn fetches_from_a_file(rt: HostRuntime) -> Result<(), Fail> {
    let name = "relay_base_fetched.txt";
    fs::write(&rt, name, "vine")?;
    let mut store = FileStore::new(&rt);
    let held = fetch(rt.alloc(), &mut store, name, 4);
    let longer = fetch(rt.alloc(), &mut store, name, 3);
    fs::remove_file(&rt, name)?;
    let missing = fetch(rt.alloc(), &mut store, name, 4);
    assert!(rt; held.is_ok_and(|bytes| bytes.as_slice() == b"vine".as_slice()));
    assert!(rt; matches!(longer, Err(Stopped::Fault(FetchFault::TooLong))));
    assert!(rt; matches!(missing, Err(Stopped::Fault(FetchFault::Failed))));
    Ok(())
}

// A reader gives its bytes once, and each of them is pulled twice, from any place.
#[test]
fn keeps_what_it_read(rt: HostRuntime) -> Result<(), Fail> {
    let mut kept = Kept::new(rt.alloc(), b"vine and hop".as_slice());
    for (from, wanted) in [(5, b"and hop"), (0, b"vine an"), (5, b"and hop")] {
        let mut into = [0u8; 7];
        assert!(rt; kept.pull(from, &mut into)? == 7, "from {from}");
        assert!(rt; into.as_slice() == wanted.as_slice(), "from {from}");
    }
    let mut into = [0u8; 7];
    assert!(rt; kept.pull(12, &mut into)? == 0);
    Ok(())
}

// What a store read it gives again, also where the file is another one by then, and it knows why
// there is none.
#[test]
fn reads_each_file_once(rt: HostRuntime) -> Result<(), Fail> {
    let (name, other) = ("relay_kept.txt", "relay_kept_too.txt");
    fs::write(&rt, name, "vine")?;
    fs::hard_link(&rt, name, other)?;
    let mut store = KeptStore::new(&rt, rt.alloc());
    assert!(rt; fetch(rt.alloc(), &mut store, name, 4).is_ok());
    assert!(rt; store.name_of_same(other) == Some(name));
    fs::write(&rt, name, "hops and malt")?;
    let again = fetch(rt.alloc(), &mut store, name, 4);
    fs::remove_file(&rt, name)?;
    assert!(rt; store.name_of_same(other).is_none());
    fs::remove_file(&rt, other)?;
    let missing = fetch(rt.alloc(), &mut store, other, 4);
    assert!(rt; again.is_ok_and(|bytes| bytes.as_slice() == b"vine".as_slice()));
    assert!(rt; matches!(missing, Err(Stopped::Fault(FetchFault::Failed))));
    assert!(rt; matches!(store.reason(), Reason::NotFound));
    let folder = fetch(rt.alloc(), &mut store, ".", 4);
    assert!(rt; matches!(folder, Err(Stopped::Fault(FetchFault::Failed))));
    assert!(rt; matches!(store.reason(), Reason::IsFolder));
    Ok(())
}

// A file stays as it was until the new one is whole, keeps its permissions and its links, and nobody's
// file beside it is touched.
#[test]
fn makes_a_new_file(rt: HostRuntime) -> Result<(), Fail> {
    let (name, part, link) = ("relay_new.txt", "relay_new.txt.part", "relay_new_link.txt");
    fs::write(&rt, name, "old")?;
    fs::set_permissions(&rt, name, PermissionsExt::from_mode(0o600))?;
    fs::write(&rt, part, "mine")?;
    symlink(&rt, name, link)?;
    let mut sink = NewFile::new(&rt, rt.alloc(), link);
    assert!(rt; put_all(&mut sink, b"vine").is_ok());
    assert!(rt; fs::read_to_string(&rt, name)?.as_str() == "old");
    assert!(rt; sink.close(true).is_ok());
    assert!(rt; is_same_file(&rt, name, link));
    assert!(rt; fs::read_to_string(&rt, name)?.as_str() == "vine");
    assert!(rt; fs::metadata(&rt, name)?.mode() & 0o777 == 0o600);
    assert!(rt; fs::read_to_string(&rt, part)?.as_str() == "mine");
    assert!(rt; !fs::exists(&rt, "relay_new.txt.part1")?);
    for name in [name, part, link] {
        fs::remove_file(&rt, name)?;
    }
    Ok(())
}

// What is not whole leaves nothing; a whole text that is empty makes an empty file.
#[test]
fn leaves_nothing_half_made(rt: HostRuntime) -> Result<(), Fail> {
    let (name, part) = ("relay_half.txt", "relay_half.txt.part");
    let mut half = NewFile::new(&rt, rt.alloc(), name);
    assert!(rt; put_all(&mut half, b"vi").is_ok());
    assert!(rt; fs::exists(&rt, part)?);
    assert!(rt; half.close(false).is_ok());
    assert!(rt; !fs::exists(&rt, part)? && !fs::exists(&rt, name)?);
    fs::write(&rt, name, "stale")?;
    assert!(rt; NewFile::new(&rt, rt.alloc(), name).close(true).is_ok());
    let empty = fs::read_to_string(&rt, name)?.is_empty();
    fs::remove_file(&rt, name)?;
    assert!(rt; empty);
    let mut folder = NewFile::new(&rt, rt.alloc(), ".");
    assert!(rt; put_all(&mut folder, b"vine") == Err(PutFailed));
    assert!(rt; matches!(folder.reason(), Reason::IsFolder));
    Ok(())
}
