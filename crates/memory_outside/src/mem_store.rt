//! The store in memory: listing, reading and writing files that are kept sorted by path, with given calls that fail.
ghost use Rattle.std.specs.Prelude.{◌≡◌, ◌<◌, ◌≤◌, ◌+◌, ◌++◌, true, Some, IfErr, IfOk, OnErr, OnOk, IsTrue, length, map, string_bytes};
ghost use Rattle.std.specs.Option.{option_map, option_to_list};
ghost use Rattle.std.specs.List.{filter_map};
ghost use Rattle.std.specs.Ordering.{nat_cmp};
ghost use Rattle.std.specs.Cmp.Lexicographic.{slice_cmp};
ghost use Rattle.std.specs.FinMap.Entries.{is_sorted, put};
ghost use Rattle.aidl_outside.specs.Causes.{StoreCause};
ghost use Rattle.aidl_outside.specs.Faults.{FailedIn, IfStoreFailed, listing as lists, reading, writing};
ghost use Rattle.aidl_outside.specs.Entries.{entries, file_at, files_of, sorted_files, place_in, put_new, with_new, IsPlaceWithin, path_of};
ghost use Rattle.memory_outside.specs.Failing.{StoreFails, counted, fails_next, half_of, store_failed, uncounted};
ghost use Rattle.aidl_outside.specs.Files.{IsRead, IsWithin, below, front_of, is_ascending, listing};
ghost use Rattle.aidl_outside.specs.Writes.{Writes};
ghost use Rattle.memory_outside.specs.declared.failures.Failing.TheVariants.{Numbers, From};

use crate::failures::{Failing, Failures};
use crate::last_call::{FailedCall, listing, reading, writing};
use aidl_base::{OutOfMemory, Row, SourceFile, Text};
use aidl_outside::{Store, StoreFault};
use std::alloc::{AllocError, Global};
use std::cmp::Ordering;

/// A store in memory, which tells its files and which call failed last. A failing write keeps the first half of the bytes, rounded down.
/// Where memory is wanted to keep them or the call, it isn't a fault: that is answered, and all is as it was.
///
/// The files lie sorted by path and are found by halving; they are sorted once, when the store is made. A write of a new
/// path moves the files after it, so to write many costs little where they come in their order.
#[derive(Drop)]
pub struct MemStore {
    files: Vec<SourceFile>,
    failures: Failures,
    last: Option<FailedCall>,
    ghost sorted: { IsTrue (is_sorted (slice_cmp nat_cmp) (entries files.items)) },
}

impl MemStore {
    ghost use Rattle.memory_outside.specs.Mem.{store_files, store_failures};
    ghost use Rattle.std.specs.FinMap as files_map;

    /// The store of these files, whose calls with the 0-based numbers in `failing` fail. With none its count never
    /// rises. Where a path stands twice, the first file counts.
    pub fn new(
        alloc: Global,
        files: Row<SourceFile>,
        failing: Row<u64>,
    ) -> Result<MemStore, OutOfMemory>
        ensures files { IfOk result (λ store. store_files store ≡ files_of files) }
        ensures failures { IfOk result (λ store. store_failures store
            ≡ uncounted (Numbers failing)) }
    {
        MemStore::filled(alloc, sorted(files)?, Failing::Numbers(failing))
    }

    /// The store of these files, whose call with the 0-based number `at` fails, and every later one. Where a path
    /// stands twice, the first file counts.
    pub fn stopping(alloc: Global, files: Row<SourceFile>, at: u64) -> Result<MemStore, OutOfMemory>
        ensures files { IfOk result (λ store. store_files store ≡ files_of files) }
        ensures failures { IfOk result (λ store. store_failures store ≡ uncounted (From at)) }
    {
        MemStore::filled(alloc, sorted(files)?, Failing::From(at))
    }

    fn filled(
        alloc: Global,
        files: Row<SourceFile>,
        failing: Failing,
    ) -> Result<MemStore, OutOfMemory>
        ensures files { IfOk result (λ store. store_files store ≡ files_of files) }
        ensures failures { IfOk result (λ store. store_failures store ≡ uncounted failing) }
    {
        let mut store = MemStore {
            files: Vec::new(alloc),
            failures: Failures::new(failing),
            last: None,
        };
        for file in files.into_vec() {
            store.add(file)?;
        }
        Ok(store)
    }

    /// The files, sorted by path.
    pub fn files(&self) -> &[SourceFile]
        ensures files { sorted_files result.now ≡ store_files self.now }
        ensures sorted { is_sorted (slice_cmp nat_cmp) (entries result.now) ≡ true }
    {
        self.files.as_slice()
    }

    /// The files, sorted by path.
    pub fn into_files(self) -> Row<SourceFile>
        ensures files { sorted_files result ≡ store_files self }
        ensures sorted { is_sorted (slice_cmp nat_cmp) (entries result) ≡ true }
    {
        Row::from_vec(self.files)
    }

    // Adds a file, unless its path is there. On a refusal the store is as it was.
    fn add(&mut self, file: SourceFile) -> Result<(), OutOfMemory>
        ensures ok { OnOk result (store_files self.new
            ≡ with_new (store_files self.old) (path_of file) file.bytes) }
        ensures failures { store_failures self.new ≡ store_failures self.old }
    {
        add_to(&mut self.files, file)
    }
}

impl Store for MemStore {
    ghost use Rattle.memory_outside.specs.Last.{store_faults};
    ghost use Rattle.memory_outside.specs.Mem.{store_files, store_failures, faults_of};
    ghost use Rattle.std.specs.FinMap as files_map;

    ghost kept = { λ store. Some (store_files store) };

    ghost fault_record = { λ store. store_faults store };

    fn list(&mut self, alloc: Global, root: &str) -> Result<Vec<String>, StoreFault>
        ensures listed { IfOk result (λ paths. map string_bytes paths.items
            ≡ listing root.now (store_files self.old)) }
        ensures ascending { IfOk result (λ paths. is_ascending (map string_bytes paths.items)
            ≡ true) }
        ensures unchanged { store_files self.new ≡ store_files self.old }
        ensures cause { StoreCause (store_faults self.old) (store_faults self.new) result }
        ensures failed_call { IfStoreFailed result
            (FailedIn (store_faults self.new) (λ call. call ≡ lists root.now)) }
        ensures told { IfStoreFailed result
            ((store_faults self.new).last ≡ Some (lists root.now)) }
        ensures never_falls { faults_of self.old ≤ faults_of self.new }
        ensures failed { StoreFails (fails_next (store_failures self.old)) result }
        ensures counts { store_failures self.new
            ≡ counted (store_failed result) (store_failures self.old) }
    {
        if self.failures.fails_now() {
            return match listing(alloc, root) {
                Ok(call) => {
                    self.failures.add_fault();
                    self.last = Some(call);
                    Err(StoreFault::Failed)
                }
                Err(_) => Err(StoreFault::OutOfMemory),
            };
        }
        match paths_below(alloc, self.files.as_slice(), root) {
            Ok(paths) => Ok(paths),
            Err(_) => Err(StoreFault::OutOfMemory),
        }
    }

    fn read(
        &mut self,
        alloc: Global,
        path: &str,
        most: usize,
    ) -> Result<Option<Vec<u8>>, StoreFault>
        requires { most < usize.MAX }
        ensures found { IfOk result (λ file. IsRead most
            (files_map.get (store_files self.old) path.now) file) }
        ensures within { IfOk result (IsWithin most) }
        ensures unchanged { store_files self.new ≡ store_files self.old }
        ensures cause { StoreCause (store_faults self.old) (store_faults self.new) result }
        ensures failed_call { IfStoreFailed result
            (FailedIn (store_faults self.new) (λ call. call ≡ reading path.now most)) }
        ensures told { IfStoreFailed result
            ((store_faults self.new).last ≡ Some (reading path.now most)) }
        ensures never_falls { faults_of self.old ≤ faults_of self.new }
        ensures failed { StoreFails (fails_next (store_failures self.old)) result }
        ensures counts { store_failures self.new
            ≡ counted (store_failed result) (store_failures self.old) }
    {
        if self.failures.fails_now() {
            return match reading(alloc, path, most) {
                Ok(call) => {
                    self.failures.add_fault();
                    self.last = Some(call);
                    Err(StoreFault::Failed)
                }
                Err(_) => Err(StoreFault::OutOfMemory),
            };
        }
        match front_at(alloc, self.files.as_slice(), path, most) {
            Ok(file) => Ok(file),
            Err(_) => Err(StoreFault::OutOfMemory),
        }
    }

    fn write(&mut self, alloc: Global, path: &str, bytes: &[u8]) -> Result<(), StoreFault>
        ensures written { Writes (Some (store_files self.old))
            (Some (store_files self.new)) path.now bytes.now result }
        ensures cause { StoreCause (store_faults self.old) (store_faults self.new) result }
        ensures failed_call { IfStoreFailed result
            (FailedIn (store_faults self.new) (λ call. call ≡ writing path.now)) }
        ensures told { IfStoreFailed result
            ((store_faults self.new).last ≡ Some (writing path.now)) }
        ensures never_falls { faults_of self.old ≤ faults_of self.new }
        ensures failed { StoreFails (fails_next (store_failures self.old)) result }
        ensures counts { store_failures self.new
            ≡ counted (store_failed result) (store_failures self.old) }
        ensures half { IfStoreFailed result (store_files self.new
            ≡ files_map.insert (store_files self.old) path.now (half_of bytes.now)) }
    {
        if self.failures.fails_now() {
            return match self.write_half(alloc, path, bytes) {
                Ok(call) => {
                    self.failures.add_fault();
                    self.last = Some(call);
                    Err(StoreFault::Failed)
                }
                Err(_) => Err(StoreFault::OutOfMemory),
            };
        }
        match self.set_bytes(alloc, path, bytes) {
            Ok(()) => Ok(()),
            Err(_) => Err(StoreFault::OutOfMemory),
        }
    }

    fn faults(&self) -> u64 {
        self.failures.faults
    }
}

// The files sorted by path. Those of one path keep their order.
fn sorted(files: Row<SourceFile>) -> Result<Row<SourceFile>, OutOfMemory>
    ensures { IfOk result (λ sorted. files_of sorted ≡ files_of files) }
{
    let mut files = files.into_vec();
    files.sort_by(order_of)?;
    Ok(Row::from_vec(files))
}

// How two files compare by the bytes of their paths.
fn order_of(file: &SourceFile, other: &SourceFile) -> Ordering
    ensures { result ≡ slice_cmp nat_cmp (path_of file.now) (path_of other.now) }
{
    file.path.as_str().cmp(other.path.as_str())
}

// A file of these bytes.
fn file_of(alloc: Global, path: &str, bytes: &[u8]) -> Result<SourceFile, OutOfMemory>
    ensures path { IfOk result (λ file. path_of file ≡ path.now) }
    ensures bytes { IfOk result (λ file. file.bytes ≡ bytes.now) }
{
    let path = Text::from_str(alloc, path)?;
    let bytes = Vec::from_slice(alloc, bytes)?;
    Ok(SourceFile {
        path,
        bytes: Row::from_vec(bytes),
    })
}

// Sets a file among files that are sorted by path. On a refusal they are as they were.
fn set_in(files: &mut Vec<SourceFile>, file: SourceFile) -> Result<(), OutOfMemory>
    requires { is_sorted (slice_cmp nat_cmp) (entries files.old.items) ≡ true }
    ensures ok { OnOk result (entries files.new.items
        ≡ put (slice_cmp nat_cmp) (path_of file) file.bytes (entries files.old.items)) }
    ensures err { OnErr result (files.new.items ≡ files.old.items) }
{
    match place_among(files.as_slice(), file.path.as_str()) {
        Ok(place) => {
            files[place] = file;
            Ok(())
        }
        Err(place) => Ok(files.insert(place, file)?),
    }
}

// Adds a file to files that are sorted by path, unless its path is there. On a refusal they are as they were.
fn add_to(files: &mut Vec<SourceFile>, file: SourceFile) -> Result<(), OutOfMemory>
    requires { is_sorted (slice_cmp nat_cmp) (entries files.old.items) ≡ true }
    ensures ok { OnOk result (entries files.new.items
        ≡ put_new (path_of file) file.bytes (entries files.old.items)) }
    ensures err { OnErr result (files.new.items ≡ files.old.items) }
{
    match place_among(files.as_slice(), file.path.as_str()) {
        Ok(_) => Ok(()),
        Err(place) => Ok(files.insert(place, file)?),
    }
}

// The place of the file with the path, or the place where it would go.
fn place_among(files: &[SourceFile], path: &str) -> Result<usize, usize>
    requires { is_sorted (slice_cmp nat_cmp) (entries files.now) ≡ true }
    ensures place { result ≡ place_in path.now (entries files.now) }
    ensures within { IsPlaceWithin (length files.now) result }
{
    files.binary_search_by(|file| file.path.as_str().cmp(path))
}

// The file with the path.
fn find<'a>(files: &'a [SourceFile], path: &str) -> Option<&'a SourceFile>
    requires { is_sorted (slice_cmp nat_cmp) (entries files.now) ≡ true }
    ensures { option_map (λ file. file.now.bytes) result ≡ file_at path.now (entries files.now) }
{
    match place_among(files, path) {
        Ok(place) => Some(&files[place]),
        Err(_) => None,
    }
}

// The front of the file with the path.
fn front_at(
    alloc: Global,
    files: &[SourceFile],
    path: &str,
    most: usize,
) -> Result<Option<Vec<u8>>, AllocError>
    requires most { most < usize.MAX }
    requires sorted { is_sorted (slice_cmp nat_cmp) (entries files.now) ≡ true }
    ensures found { IfOk result (IsRead most (file_at path.now (entries files.now))) }
    ensures within { IfOk result (IsWithin most) }
{
    match find(files, path) {
        None => Ok(None),
        Some(file) => Ok(Some(front(alloc, file.bytes.as_slice(), most)?)),
    }
}

#[tactic(auto, unfolding(aidl_outside::specs::Files::front_of))]
fn front(alloc: Global, bytes: &[u8], most: usize) -> Result<Vec<u8>, AllocError>
    requires { most < usize.MAX }
    ensures front { IfOk result (λ v. v.items ≡ front_of most bytes.now) }
    ensures within { IfOk result (λ v. length v.items ≤ most + 1) }
{
    if bytes.len() <= most {
        Vec::from_slice(alloc, bytes)
    } else {
        Vec::from_slice(alloc, &bytes[..most + 1])
    }
}

// The paths of the files below a root, relative to it.
fn paths_below(alloc: Global, files: &[SourceFile], root: &str) -> Result<Vec<String>, OutOfMemory>
    ensures { IfOk result (λ paths. map string_bytes paths.items
        ≡ filter_map (below root.now) (map path_of files.now)) }
{
    let mut paths = Vec::new(alloc);
    for file in files {
        push_below(alloc, &mut paths, root, file)?;
    }
    Ok(paths)
}

// Adds the path of a file, where it is below the root.
fn push_below(
    alloc: Global,
    paths: &mut Vec<String>,
    root: &str,
    file: &SourceFile,
) -> Result<(), OutOfMemory>
    ensures { OnOk result (map string_bytes paths.new.items
        ≡ map string_bytes paths.old.items ++ option_to_list (below root.now (path_of file.now))) }
{
    match relative(root, file.path.as_str()) {
        None => Ok(()),
        Some(path) => {
            let text = String::from_str(alloc, path)?;
            paths.push(text)?;
            Ok(())
        }
    }
}

// The path after the root and a slash.
fn relative<'a>(root: &str, path: &'a str) -> Option<&'a str>
    ensures { option_map (λ rest. rest.now) result ≡ below root.now path.now }
{
    match path.strip_prefix(root) {
        None => None,
        Some(rest) => rest.strip_prefix('/'),
    }
}

impl MemStore {
    ghost use Rattle.memory_outside.specs.Last.{call_seen, store_faults};
    ghost use Rattle.memory_outside.specs.Mem.{store_files, store_failures};
    ghost use Rattle.std.specs.FinMap as files_map;

    // Sets the first half of the bytes at a path, and answers which call it was. On a refusal the store is as it was.
    fn write_half(
        &mut self,
        alloc: Global,
        path: &str,
        bytes: &[u8],
    ) -> Result<FailedCall, OutOfMemory>
        ensures call { IfOk result (λ call. call_seen call ≡ writing path.now) }
        ensures half { IfOk result (λ _. store_files self.new
            ≡ files_map.insert (store_files self.old) path.now (half_of bytes.now)) }
        ensures err { IfErr result (λ _. store_files self.new ≡ store_files self.old) }
        ensures failures { store_failures self.new ≡ store_failures self.old }
        ensures faults { store_faults self.new ≡ store_faults self.old }
    {
        let call = writing(alloc, path)?;
        let (half, _) = bytes.split_at(bytes.len() / 2);
        self.set_bytes(alloc, path, half)?;
        Ok(call)
    }

    // Sets the bytes at a path. On a refusal the store is as it was.
    fn set_bytes(&mut self, alloc: Global, path: &str, bytes: &[u8]) -> Result<(), OutOfMemory>
        ensures ok { OnOk result (store_files self.new
            ≡ files_map.insert (store_files self.old) path.now bytes.now) }
        ensures err { OnErr result (store_files self.new ≡ store_files self.old) }
        ensures failures { store_failures self.new ≡ store_failures self.old }
        ensures faults { store_faults self.new ≡ store_faults self.old }
    {
        let file = file_of(alloc, path, bytes)?;
        set_in(&mut self.files, file)
    }
}
