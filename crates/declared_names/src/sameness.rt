//! Whether two names are the same.
ghost use Rattle.std.specs.Prelude.{◌≡◌, ◌++◌, length};
ghost use Rattle.std.specs.Str.{bytes_eq};
ghost use Rattle.declared_names.specs.Names.{text, same};

use aidl_base::Ident;

/// Whether two parts are the same.
pub fn same_part(a: &Ident, b: &Ident) -> bool
    ensures { result ≡ bytes_eq (text a.now) (text b.now) }
{
    a.0.as_str() == b.0.as_str()
}

/// Whether two names are the same part by part.
pub fn same(a: &[Ident], b: &[Ident]) -> bool
    ensures { result ≡ same a.now b.now }
{
    if a.len() != b.len() {
        return false;
    }
    same_parts(a, b)
}

fn same_parts(a: &[Ident], b: &[Ident]) -> bool
    requires { length a.now ≡ length b.now }
    ensures { result ≡ same a.now b.now }
{
    for i in 0..a.len() {
        if !same_part(&a[i], &b[i]) {
            return false;
        }
    }
    true
}

/// Whether a name is another one with more parts behind it.
pub fn is_joined(name: &[Ident], front: &[Ident], back: &[Ident]) -> bool
    ensures { result ≡ same name.now (front.now ++ back.now) }
{
    if name.len() < front.len() {
        return false;
    }
    let (begin, end) = name.split_at(front.len());
    same(begin, front) && same(end, back)
}
