//! Percent-encoding and decoding (RFC 3986, section 2.1).
ghost use Rattle.std.specs.Prelude.{◌≡◌, IfOk, IsTrue, string_bytes};
ghost use Rattle.std.specs.Result.{result_err};
ghost use Rattle.fluent_uri.specs.Prelude.{cow_items, text_of};
ghost use Rattle.fluent_uri_c.specs.Results.{IsReturnedAs, component_error, decode_result, decoded_result, encode_result, encoded_as_result};

use crate::errors::{Error, Rejection};
use crate::rules::read_characters;
use crate::texts::is_possible_length;
use fluent_uri::pct_enc::encoder::{
    Data, Encoder, Fragment, IFragment, IPath, IQuery, IRegName, IUserinfo, Path, Query, RegName,
    Userinfo,
};
use fluent_uri::pct_enc::{CowSlice, EStr, EString};
use std::alloc::Global;

/// Returns bytes that C hands over as a component, if they are valid for the encoder's set.
fn valid_component<'a, E: Encoder>(bytes: &'a [u8]) -> Result<EStr<'a, E>, Rejection>
    ensures text { IfOk result (λ component. text_of component ≡ bytes.now) }
    ensures rejected { result_err result ≡ component_error E.set bytes.now }
{
    let text = read_characters(&E::table(), bytes)?;
    Ok(EStr::new_or_panic(text))
}

/// Decodes bytes that C hands over as a component that is valid for the encoder's set.
fn decoded_as<'a, E: Encoder>(alloc: Global, bytes: &'a [u8]) -> Result<CowSlice<'a, u8>, Rejection>
    requires { IsTrue (E.set).pct_encoded }
    ensures { IsReturnedAs cow_items (decoded_result E.set bytes.now) result }
{
    Ok(valid_component::<E>(bytes)?.decode().to_bytes(alloc)?)
}

/// Decodes bytes that C hands over as the component with this number of the header.
pub fn decoded<'a>(
    alloc: Global,
    component: u32,
    bytes: &'a [u8],
) -> Result<CowSlice<'a, u8>, Rejection>
    ensures { IsReturnedAs cow_items (decode_result component bytes.now) result }
{
    match component {
        0 => decoded_as::<IUserinfo>(alloc, bytes),
        1 => decoded_as::<IRegName>(alloc, bytes),
        2 => decoded_as::<IPath>(alloc, bytes),
        3 => decoded_as::<IQuery>(alloc, bytes),
        4 => decoded_as::<IFragment>(alloc, bytes),
        _ => Err(Rejection::of(Error::InvalidArgument)),
    }
}

/// Percent-encodes bytes that C hands over by the encoder's set.
fn encoded_as<E: Encoder>(alloc: Global, bytes: &[u8]) -> Result<String, Rejection>
    requires { IsTrue (E.set).pct_encoded }
    ensures { IsReturnedAs string_bytes (encoded_as_result E.set bytes.now) result }
{
    if !is_possible_length(bytes) {
        return Err(Rejection::of(Error::InvalidArgument));
    }
    let mut text = EString::<E>::new(alloc);
    text.encode_bytes::<E>(bytes)?;
    Ok(text.into_string())
}

/// Percent-encodes bytes that C hands over as data of the component with this number of the header.
pub fn encoded(alloc: Global, component: u32, bytes: &[u8]) -> Result<String, Rejection>
    ensures { IsReturnedAs string_bytes (encode_result component bytes.now) result }
{
    match component {
        0 => encoded_as::<Userinfo>(alloc, bytes),
        1 => encoded_as::<RegName>(alloc, bytes),
        2 => encoded_as::<Path>(alloc, bytes),
        3 => encoded_as::<Query>(alloc, bytes),
        4 => encoded_as::<Fragment>(alloc, bytes),
        8 => encoded_as::<Data>(alloc, bytes),
        _ => Err(Rejection::of(Error::InvalidArgument)),
    }
}
