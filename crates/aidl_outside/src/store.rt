//! The trait of stores, which hold files by their paths.
ghost use Rattle.std.specs.Prelude.{◌≡◌, ◌≤◌, ◌<◌, ℕ, List, Option, IfOk, map, string_bytes, true};
ghost use Rattle.std.specs.FinMap as files_map;
ghost use Rattle.aidl_outside.specs.Causes.{StoreCause};
ghost use Rattle.aidl_outside.specs.Faults.{FailedIn, IfStoreFailed, StoreFaults, listing as lists, reading, writing};
ghost use Rattle.aidl_outside.specs.Files.{Files, IsRead, IsWithin, listing, is_ascending};
ghost use Rattle.aidl_outside.specs.Told.{Tells};
ghost use Rattle.aidl_outside.specs.Writes.{Writes};

use std::alloc::Global;

/// Why a call of a store gave nothing.
#[derive(Clone, Copy, Debug, PartialEq, Eq)]
pub enum StoreFault {
    Failed,
    OutOfMemory,
}

/// Files by their paths. A path below a folder is the folder, `/` and the relative path.
///
/// A store may tell what it holds: a map from the bytes of a path to the bytes of the file there. It counts its
/// faults, and may tell which call failed last; a call answers `Failed` only where the count rose in that call, or
/// stands at `u64::MAX`, and otherwise leaves both as they were.
pub trait Store {
    /// what it holds, where it tells
    ghost kept: { Self → Option Files };
    /// how often it has failed, and which call failed last, where it tells that
    ghost fault_record: { Self → StoreFaults };

    /// The paths of all files below a root, relative to it, sorted by bytes.
    fn list(&mut self, alloc: Global, root: &str) -> Result<Vec<String>, StoreFault>
        ensures listed { IfOk result (λ paths. Tells (kept self.old)
            (λ files. map string_bytes paths.items ≡ listing root.now files)) }
        ensures ascending { IfOk result (λ paths. is_ascending (map string_bytes paths.items)
            ≡ true) }
        ensures unchanged { kept self.new ≡ kept self.old }
        ensures cause { StoreCause (fault_record self.old) (fault_record self.new) result }
        ensures failed_call { IfStoreFailed result
            (FailedIn (fault_record self.new) (λ call. call ≡ lists root.now)) }
        ensures never_falls { (fault_record self.old).count ≤ (fault_record self.new).count };

    /// The file at a path, and of one longer than `most` bytes its first `most + 1`. None where nothing stands there.
    fn read(
        &mut self,
        alloc: Global,
        path: &str,
        most: usize,
    ) -> Result<Option<Vec<u8>>, StoreFault>
        requires { most < usize.MAX }
        ensures found { IfOk result (λ file. Tells (kept self.old)
            (λ files. IsRead most (files_map.get files path.now) file)) }
        ensures within { IfOk result (IsWithin most) }
        ensures unchanged { kept self.new ≡ kept self.old }
        ensures cause { StoreCause (fault_record self.old) (fault_record self.new) result }
        ensures failed_call { IfStoreFailed result
            (FailedIn (fault_record self.new) (λ call. call ≡ reading path.now most)) }
        ensures never_falls { (fault_record self.old).count ≤ (fault_record self.new).count };

    /// Sets the file at a path. After `Failed` that one path may hold any bytes or nothing, and all others stay.
    fn write(&mut self, alloc: Global, path: &str, bytes: &[u8]) -> Result<(), StoreFault>
        ensures written { Writes (kept self.old) (kept self.new) path.now bytes.now result }
        ensures cause { StoreCause (fault_record self.old) (fault_record self.new) result }
        ensures failed_call { IfStoreFailed result
            (FailedIn (fault_record self.new) (λ call. call ≡ writing path.now)) }
        ensures never_falls { (fault_record self.old).count ≤ (fault_record self.new).count };

    /// The number of faults so far.
    fn faults(&self) -> u64
        ensures { result ≡ (fault_record self.now).count };
}
