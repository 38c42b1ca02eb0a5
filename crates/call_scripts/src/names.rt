//! Which method a line's `call` names, in the client's schema and in the server's.
ghost use Rattle.std.specs.Prelude.{◌≡◌, option_map, IfSome};
ghost use Rattle.aidl_schema.specs.Find as find;
ghost use Rattle.call_scripts.specs.Names as meant;
ghost use Rattle.call_scripts.specs.steps.Named.{IsNamed};
ghost use Rattle.call_scripts.specs.steps.Seen.{named_data};

use aidl_schema::{Method, Schema, interface_named, law_valid, methods_at};

// The numbers of a call's interface and method, of the server's interface of that name and of its method of that name.
#[derive(Clone, Copy)]
pub struct Named {
    pub interface: u32,
    pub method: u32,
    pub server: Option<u32>,
    pub target: Option<u32>,
}

// The method that a text means: the canonical name of an interface, a dot and the method's name.
pub fn method_meant(client: &Schema, server: &Schema, text: &str) -> Option<Named>
    ensures named { option_map named_data result
        ≡ meant.method_meant client.now.decls server.now.decls text.now }
    ensures known { IfSome result (λ n. IsNamed client.now.decls server.now.decls n) }
{
    match at_last_dot(text) {
        Some((interface, method)) => named_by(client, server, interface, method),
        None => None,
    }
}

fn at_last_dot(text: &str) -> Option<(&str, &str)>
    ensures { option_map (λ p. (p.0.now, p.1.now)) result ≡ meant.at_last_dot text.now }
{
    text.rsplit_once('.')
}

fn named_by(client: &Schema, server: &Schema, interface: &str, method: &str) -> Option<Named>
    ensures named { option_map named_data result
        ≡ meant.named_by client.now.decls server.now.decls interface.now method.now }
    ensures known { IfSome result (λ n. IsNamed client.now.decls server.now.decls n) }
{
    let number = interface_named(client, interface)?;
    let position = method_named(client, number, method)?;
    let other = interface_named(server, interface);
    Some(Named {
        interface: number,
        method: position,
        server: other,
        target: target_named(server, other, method),
    })
}

fn target_named(server: &Schema, interface: Option<u32>, method: &str) -> Option<u32>
    ensures { result ≡ meant.target_named server.now.decls interface method.now }
{
    match interface {
        Some(number) => method_named(server, number, method),
        None => None,
    }
}

// The position of the interface's method of a name.
fn method_named(schema: &Schema, interface: u32, name: &str) -> Option<u32>
    ensures { result ≡ meant.method_named schema.now.decls interface name.now }
{
    law_valid(schema);
    match position_named(methods_at(schema, interface), name) {
        Some(position) => Some(position as u32),
        None => None,
    }
}

fn position_named(methods: &[Method], name: &str) -> Option<usize>
    ensures { result ≡ meant.position_named methods.now name.now }
{
    methods
        .iter()
        .position(|method| method.name.0.as_str() == name)
}
