//! How a command ends where the versions of an API aren't read.
ghost use Rattle.version_lines.specs.Lines.{IsUnread};
ghost use Rattle.version_commands.specs.Ends.{UnreadEnds};

use api_versions::VersionsFault;
use std::alloc::Global;
use tool_frame::{Halt, limit_passed};
use version_lines::bad_versions;

/// How a command ends where the versions of an API aren't read: with `bad versions missing N`, or a limit; or since a call of the store
/// failed, or memory was wanted.
pub fn versions_refusal(alloc: Global, fault: VersionsFault) -> Halt
    ensures { UnreadEnds (IsUnread fault) fault result }
{
    match fault {
        VersionsFault::BadVersions { missing } => Halt::from(bad_versions(alloc, missing)),
        VersionsFault::Limit(limit) => Halt::from(limit_passed(alloc, limit)),
        VersionsFault::ReadFault => Halt::StoreFailed,
        VersionsFault::OutOfMemory => Halt::OutOfMemory,
    }
}
