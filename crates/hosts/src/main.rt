//! Prints the host of each URI reference of the input, which has one a line.
#![tactic(auto, using(fluent_uri::proofs::Calling::calling))]

ghost use Rattle.std.specs.Prelude.{◌≡◌, option_map, IfOk};
ghost use Rattle.std.specs.Result.{result_err};
ghost use Rattle.fluent_uri.specs.Prelude.{authority_parts, components, refusal, uri_ref};

use fluent_uri::component::Authority;
use fluent_uri::{ParseError, UriRef};
use std::io;

/// Returns the host of a URI reference, if it has an authority (RFC 3986, section 3.2.2).
fn host(text: &str) -> Result<Option<&str>, ParseError>
    ensures error { result_err result ≡ refusal uri_ref text.now }
    ensures host { IfOk result (λ host. option_map (λ h. h.now) host
        ≡ option_map (λ a. (authority_parts a).host) (components text.now).authority) }
{
    let reference = UriRef::<&str>::parse(text)?;
    Ok(reference.authority().map(Authority::host))
}

/// Prints what `host` returns for each line of the input.
fn main(rt: HostRuntime) -> io::Result<()> {
    for line in rt.lines(rt.alloc()) {
        match host(line?.as_str()) {
            Ok(Some(host)) => println!(rt; "{host}")?,
            Ok(None) => println!(rt; "no host")?,
            Err(error) => println!(rt; "error: {error}")?,
        }
    }
    Ok(())
}
