//! The real files.

use ac_port::{DiskFiles, Files, ReadStop, WriteStop};
use std::alloc::Global;
use std::{env, fs};

/// Whether a read of at most so many bytes gives these.
fn reads(alloc: Global, files: &mut impl Files, name: &[u8], limit: u64, wanted: &[u8]) -> bool {
    match files.read(alloc, name, limit) {
        Ok(bytes) => bytes.as_slice() == wanted,
        Err(_) => false,
    }
}

/// Whether a read of at most so many bytes stops for this cause.
fn stops(alloc: Global, files: &mut impl Files, name: &[u8], limit: u64, wanted: ReadStop) -> bool {
    match files.read(alloc, name, limit) {
        Ok(_) => false,
        Err(stop) => stop == wanted,
    }
}

/// Whether a part is so many bytes long, and the buffer then holds these.
fn fills(
    files: &mut impl Files,
    name: &[u8],
    from: u64,
    buffer: &mut [u8; 4],
    count: usize,
    wanted: &[u8],
) -> bool {
    match files.part(name, from, buffer) {
        Ok(taken) => taken == count && buffer.as_slice() == wanted,
        Err(_) => false,
    }
}

/// Whether the file is `some bytes`, by whole reads.
fn is_read(alloc: Global, files: &mut impl Files, name: &[u8]) -> bool {
    reads(alloc, files, name, 10, b"some bytes") && stops(alloc, files, name, 9, ReadStop::TooBig)
}

/// Whether the file is `some bytes`, by parts. What a part does not fill of the buffer stays.
fn has_parts(files: &mut impl Files, name: &[u8]) -> bool {
    let mut buffer = [0u8; 4];
    fills(files, name, 5, &mut buffer, 4, b"byte")
        && fills(files, name, 8, &mut buffer, 2, b"este")
        && fills(files, name, 10, &mut buffer, 0, b"este")
}

/// Whether neither a part nor the whole can be read.
fn is_gone(alloc: Global, files: &mut impl Files, name: &[u8]) -> bool {
    let mut buffer = [0u8; 4];
    matches!(files.part(name, 0, &mut buffer), Err(ReadStop::Failed))
        && stops(alloc, files, name, 10, ReadStop::Failed)
}

/// Whether a write into a folder that is not there fails.
fn fails_to_write(files: &mut impl Files) -> bool {
    matches!(
        files.write(b"no/such/folder/here", b""),
        Err(WriteStop::Failed)
    )
}

/// Whether the file is there while it is, and then gone.
fn holds_while_it_is(rt: &HostRuntime, path: &str) -> bool {
    let name = path.as_bytes();
    let mut files = DiskFiles::new(rt);
    files.write(name, b"some bytes").is_ok()
        && is_read(rt.alloc(), &mut files, name)
        && has_parts(&mut files, name)
        && fs::remove_file(rt, path).is_ok()
        && is_gone(rt.alloc(), &mut files, name)
        && fails_to_write(&mut files)
}

#[test]
fn the_disk_gives_what_was_written(rt: HostRuntime) {
    let Ok(folder) = env::temp_dir(&rt) else {
        panic!(rt; "no folder");
    };
    let Ok(path) = folder.join(rt.alloc(), "denmavoli-ac-port-test") else {
        panic!(rt; "no memory");
    };
    match path.to_str() {
        Some(path) => assert!(rt; holds_while_it_is(&rt, path)),
        None => panic!(rt; "no path in UTF-8"),
    }
}
