//! The store over the host's folders, on folders of its own below the system's temporary one.

use crate::stores::{Call, answers};
use host_outside::FolderStore;
use std::fs::Files;
use std::os::unix::fs::{MetadataExt, PermissionsExt};
use std::process::Abort;
use std::rt::Env;
use std::test::Fail;
use std::{env, fs, io, process};

// A path for one test, where nothing stands.
fn place(rt: &HostRuntime, name: &str) -> io::Result<String> {
    let temporary = env::temp_dir(rt)?;
    let id = process::id(rt.process());
    let path = format!(in rt.alloc();
        "{}/aidl-outside-{id}-{name}",
        temporary.as_path().display()
    )?;
    let _missing = fs::remove_dir_all(rt, path.as_str());
    Ok(path)
}

// Makes calls on a store that is given one name, and removes the folder of all.
fn tries<R: Abort + AllocGlobal + Files>(
    rt: &R,
    root: &str,
    named: &str,
    calls: &[(Call<'_>, &str)],
) -> io::Result<()> {
    let names = [format!(in rt.alloc(); "{root}{named}")?];
    answers(rt, &mut FolderStore::new(rt, &names), root, calls);
    fs::remove_dir_all(rt, root)
}

const LISTING: [(Call<'static>, &str); 9] = [
    // a missing root
    (Call::List(""), "Ok([])"),
    (Call::Write("/a/b", b"1"), "Ok(())"),
    (Call::Write("/a.b", b"2"), "Ok(())"),
    (Call::Link("/link", "a.b"), "Ok(())"),
    (Call::List(""), "Ok([\"a.b\", \"a/b\"])"),
    // a file as root
    (Call::List("/a.b"), "Ok([])"),
    (Call::Link("/twin", "a"), "Ok(())"),
    // a link as root
    (Call::List("/twin"), "Ok([\"b\"])"),
    (Call::Faults, "0"),
];

#[test]
fn a_listing_is_sorted_by_whole_paths_and_leaves_links_out(rt: HostRuntime) -> Result<(), Fail> {
    let root = place(&rt, "listing")?;
    tries(&rt, root.as_str(), "", &LISTING)?;
    Ok(())
}

const WRITING: [(Call<'static>, &str); 8] = [
    // a missing file
    (Call::Read("/x/y", 9), "Ok(None)"),
    (Call::Write("/x/y", b"a longer file"), "Ok(())"),
    (Call::Write("/x/y", b"abc"), "Ok(())"),
    (Call::Read("/x/y", 2), "Ok(Some([97, 98, 99]))"),
    (Call::Read("/x/y", 3), "Ok(Some([97, 98, 99]))"),
    (Call::Read("/x/y", 1), "Ok(Some([97, 98]))"),
    // an empty file
    (Call::Write("/x/y", b""), "Ok(())"),
    (Call::Read("/x/y", 0), "Ok(Some([]))"),
];

#[test]
fn a_write_replaces_what_stood_there(rt: HostRuntime) -> Result<(), Fail> {
    let root = place(&rt, "writing")?;
    tries(&rt, root.as_str(), "", &WRITING)?;
    Ok(())
}

const FAILING: [(Call<'static>, &str); 8] = [
    (Call::Write("/file", b"1"), "Ok(())"),
    // below a file
    (Call::Write("/file/under", b"2"), "Err(Failed)"),
    (Call::Read("/file/under", 9), "Ok(None)"),
    // a folder as a file
    (Call::Read("", 9), "Err(Failed)"),
    (Call::Write("", b"2"), "Err(Failed)"),
    // a loop of links
    (Call::Link("/ring", "ring"), "Ok(())"),
    (Call::Read("/ring", 9), "Err(Failed)"),
    (Call::Faults, "4"),
];

#[test]
fn what_cannot_be_is_a_failed_call(rt: HostRuntime) -> Result<(), Fail> {
    let root = place(&rt, "failing")?;
    tries(&rt, root.as_str(), "", &FAILING)?;
    Ok(())
}

const LINKS: [(Call<'static>, &str); 7] = [
    (Call::Write("/real/file", b"1"), "Ok(())"),
    (Call::Link("/link", "real/file"), "Ok(())"),
    (Call::Link("/folder", "real"), "Ok(())"),
    (Call::Write("/link", b"2"), "Err(Failed)"),
    (Call::Write("/folder/file", b"2"), "Err(Failed)"),
    (Call::Read("/link", 9), "Err(Failed)"),
    // what the links lead to
    (Call::Read("/real/file", 9), "Ok(Some([49]))"),
];

#[test]
fn below_a_named_folder_nothing_is_reached_through_a_link(rt: HostRuntime) -> Result<(), Fail> {
    let root = place(&rt, "links")?;
    tries(&rt, root.as_str(), "", &LINKS)?;
    Ok(())
}

const TWIN: [(Call<'static>, &str); 4] = [
    (Call::Link("/twin", "real"), "Ok(())"),
    (Call::Write("/twin/a/file", b"1"), "Ok(())"),
    (Call::Read("/real/a/file", 9), "Ok(Some([49]))"),
    (Call::Faults, "0"),
];

#[test]
fn a_folder_that_is_named_may_be_a_link(rt: HostRuntime) -> Result<(), Fail> {
    let root = place(&rt, "twin")?;
    let real = format!(in rt.alloc(); "{}/real", root.as_str())?;
    fs::create_dir_all(&rt, real.as_str())?;
    tries(&rt, root.as_str(), "/twin", &TWIN)?;
    Ok(())
}

// A path behind a slash, of so many bytes.
fn long_path<R: Abort + AllocGlobal>(rt: &R, length: usize) -> String {
    format!(in rt.alloc(); "/{:n<length$}", "").expect(rt, "memory")
}

#[test]
fn a_name_has_at_most_255_bytes(rt: HostRuntime) -> Result<(), Fail> {
    let root = place(&rt, "names")?;
    let longest = long_path(&rt, 255);
    let too_long = long_path(&rt, 256);
    let listing = format!(in rt.alloc(); "Ok([\"{:n<255}\"])", "")?;
    let calls = [
        (Call::Write(longest.as_str(), b"1"), "Ok(())"),
        (Call::List(""), listing.as_str()),
        (Call::Read(too_long.as_str(), 9), "Err(Failed)"),
        (Call::Write(too_long.as_str(), b"2"), "Err(Failed)"),
    ];
    tries(&rt, root.as_str(), "", &calls)?;
    Ok(())
}

// Makes a folder that nobody may look into.
fn make_shut(rt: &HostRuntime, path: &str) -> io::Result<()> {
    fs::create_dir_all(rt, path)?;
    let mut permissions = fs::metadata(rt, path)?.permissions();
    permissions.set_mode(0);
    fs::set_permissions(rt, path, permissions)
}

const SHUT: [(Call<'static>, &str); 1] = [(Call::List(""), "Err(Failed)")];

// Nothing is shown where the tests run as root, whom no permission stops.
#[test]
fn a_folder_without_permission_is_a_failed_call(rt: HostRuntime) -> Result<(), Fail> {
    let root = place(&rt, "permission")?;
    let shut = format!(in rt.alloc(); "{}/shut", root.as_str())?;
    make_shut(&rt, shut.as_str())?;
    if fs::metadata(&rt, root.as_str())?.uid() != 0 {
        answers(&rt, &mut FolderStore::new(&rt, &[]), root.as_str(), &SHUT);
    }
    fs::remove_dir(&rt, shut.as_str())?;
    fs::remove_dir_all(&rt, root.as_str())?;
    Ok(())
}
