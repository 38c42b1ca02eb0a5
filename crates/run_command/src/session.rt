//! What the lines of a calls file are run between, and how.

use aidl_base::Profile;

/// A client and a server, each a schema or a side of a call, the profile by which both read, and whether what is carried is traced.
#[derive(Drop)]
pub struct Session<P> {
    pub profile: Profile,
    pub client: P,
    pub server: P,
    pub trace: bool,
}
