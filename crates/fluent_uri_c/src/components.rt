//! The batch that writes a component of each text.
ghost use Rattle.std.specs.Prelude.{◌≡◌, Some, option_copied};
ghost use Rattle.fluent_uri.specs.Prelude.{authority_text, reference_text};
ghost use Rattle.fluent_uri_c.specs.Columns.{LeavesColumn, buffers, column32, column64};
ghost use Rattle.fluent_uri_c.specs.Components.{authority_component, component_numbered, component_result};
ghost use Rattle.fluent_uri_c.specs.Kinds.{kind_numbered};
ghost use Rattle.fluent_uri_c.specs.SingleCalls.{taking_component};

use crate::batch::{Call, CallResult, column};
use crate::outcome::Outcome;
use crate::texts::parsed;
use fluent_uri::Reference;
use fluent_uri::component::Authority;
use fluent_uri::pct_enc::Encoder;
use std::alloc::AllocError;
use uri_parts::kind::{IriKind, IriRefKind, Kind, UriKind, UriRefKind};

/// Returns the component of an authority with this number of the header, or the whole authority.
fn authority_component<'a, U: Encoder, R: Encoder>(
    authority: Authority<'a, U, R>,
    component: u32,
) -> Option<&'a str>
    ensures { option_copied result
        ≡ authority_component component (authority_text authority.entry) }
{
    match component {
        0 => match authority.userinfo() {
            Some(userinfo) => Some(userinfo.as_str()),
            None => None,
        },
        1 => Some(authority.host()),
        6 => Some(authority.as_str()),
        7 => match authority.port() {
            Some(port) => Some(port.as_str()),
            None => None,
        },
        _ => None,
    }
}

/// Returns the component of a value with this number of the header, if there is one.
fn component_in<'a, K: Kind>(value: Reference<K, &'a str>, component: u32) -> Option<&'a str>
    ensures { option_copied result
        ≡ component_numbered component (reference_text value.entry) }
{
    match component {
        2 => Some(value.path().as_str()),
        3 => match value.query() {
            Some(query) => Some(query.as_str()),
            None => None,
        },
        4 => match value.fragment() {
            Some(fragment) => Some(fragment.as_str()),
            None => None,
        },
        5 => match value.into_core().scheme() {
            Some(scheme) => Some(scheme.as_str()),
            None => None,
        },
        _ => match value.authority() {
            Some(authority) => authority_component(authority, component),
            None => None,
        },
    }
}

/// Returns the component with this number of the header, of bytes that are a text of the kind, if
/// there is one.
fn component_as<'a, K: Kind>(bytes: &'a [u8], component: u32) -> Option<&'a [u8]>
    ensures { option_copied result ≡ component_result (Some K.kind) component bytes.now }
{
    match parsed::<K>(bytes) {
        Ok(value) => match component_in(value, component) {
            Some(part) => Some(part.as_bytes()),
            None => None,
        },
        Err(_) => None,
    }
}

/// Returns the component of a text, by the numbers of the header for the kind and the component, if
/// there is one.
fn component_of<'a>(kind: u32, component: u32, bytes: &'a [u8]) -> Option<&'a [u8]>
    ensures { option_copied result ≡ component_result (kind_numbered kind) component bytes.now }
{
    match kind {
        0 => component_as::<UriKind>(bytes, component),
        1 => component_as::<UriRefKind>(bytes, component),
        2 => component_as::<IriKind>(bytes, component),
        3 => component_as::<IriRefKind>(bytes, component),
        _ => None,
    }
}

/// The call that takes a component of texts of a kind.
#[derive(Clone, Copy)]
struct Component {
    kind: u32,
    component: u32,
}

impl Call for Component {
    ghost definition = { λ call. taking_component call.kind call.component };

    /// Returns whether the numbers are those of a kind and a component in the header.
    fn is_valid(&self) -> bool {
        self.kind <= 3 && self.component < 8
    }

    /// Returns the component of a text, if the text is of the kind and has it.
    fn call<'a>(&self, text: &'a [u8]) -> Result<Option<CallResult<'a>>, AllocError> {
        match component_of(self.kind, self.component, text) {
            Some(part) => Ok(Some(CallResult::Part(part))),
            None => Ok(None),
        }
    }
}

/// Writes a component of each text of a column.
#[unsafe(no_mangle)]
pub extern "C" fn fluent_uri_component_batch(
    kind: u32,
    component: u32,
    texts: &[u8],
    offsets: &[u32],
    out: &mut [u8],
    out_offsets: &mut [u32],
    valid: &mut [u8],
    outcome: &mut Outcome,
) -> u32
    ensures { LeavesColumn (taking_component kind component) (column32 texts.now offsets.now)
        (buffers out.old out_offsets.old valid.old) (buffers out.new out_offsets.new valid.new)
        outcome.new result }
{
    let call = Component { kind, component };
    column(&call, texts, offsets, out, out_offsets, valid, outcome)
}

/// Writes a component of each text of a column, with offsets of 64 bits.
#[unsafe(no_mangle)]
pub extern "C" fn fluent_uri_component_batch64(
    kind: u32,
    component: u32,
    texts: &[u8],
    offsets: &[u64],
    out: &mut [u8],
    out_offsets: &mut [u64],
    valid: &mut [u8],
    outcome: &mut Outcome,
) -> u32
    ensures { LeavesColumn (taking_component kind component) (column64 texts.now offsets.now)
        (buffers out.old out_offsets.old valid.old) (buffers out.new out_offsets.new valid.new)
        outcome.new result }
{
    column(
        &Component { kind, component },
        texts,
        offsets,
        out,
        out_offsets,
        valid,
        outcome,
    )
}
