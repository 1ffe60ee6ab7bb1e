//! The text that a builder writes, with the lengths of its parts (RFC 3986, section 5.3).
ghost use Rattle.std.specs.Prelude.{◌≡◌, ◌+◌, ◌++◌, ◌≤◌, IfSome, [], false, is_none, length, unwrap_or, true, string_bytes};
ghost use Rattle.uri_pct.specs.Prelude.{Pushes, digit_set};
ghost use Rattle.uri_parts.specs.Prelude.{has_colon_in_first_segment, positions_of};
ghost use Rattle.uri_ops.specs.BuilderParts.{AddsUnlessFailed, as_components, is_text_for, no_parts, with_authority, with_fragment, with_host, with_path, with_port, with_query, with_scheme, with_userinfo};
ghost use Rattle.uri_ops.specs.Built.{build_error_of_path, refusal};
ghost use Rattle.uri_ops.specs.Drafts.{IsDraft, after_part};
ghost use Rattle.uri_ops.specs.HostParts.{IsHostText};

use crate::build::appending::{
    append_host, append_port, append_unless_failed, lengths_with_longer_authority,
};
use crate::build::error::BuildError;
use crate::build::host_port::{AsPort, WithEncoder};
use crate::build::lengths::Lengths;
use crate::build::places::{HostRange, positions_from_lengths};
use crate::path::slashes::{begins_with_slash, begins_with_two_slashes};
use std::alloc::Global;
use uri_parts::positions::Positions;
use uri_pct::encoder::Encoder;

/// The text so far, with the lengths of its parts and the position of the host in the authority.
/// Unless it is marked failed, it is the text of its parts by RFC 3986, section 5.3.
#[derive(Drop)]
pub struct Draft {
    pub text: String,
    pub lengths: Lengths,
    pub host: HostRange,
    pub failed: bool,
    pub ghost ok: { failed ≡ false → IsDraft lengths (string_bytes text) },
}

impl Draft {
    ghost use Rattle.uri_ops.specs.Builders.{any_authority, draft_parts, ends_in_authority, lacks_query_and_fragment, lacks_all, lacks_authority, lacks_path};
    ghost use Rattle.uri_ops.specs.Models.DraftPlaces.{HasRightHostRange};

    /// Returns a builder's draft that holds nothing.
    pub fn new(alloc: Global) -> Draft
        ensures { draft_parts result ≡ no_parts }
    {
        Draft {
            text: String::new(alloc),
            lengths: Lengths {
                scheme: None,
                authority: None,
                path: None,
                query: None,
                fragment: None,
            },
            host: HostRange { start: 0, end: 0 },
            failed: false,
        }
    }

    /// Returns the draft with these two texts appended, with parts of these lengths, and the host
    /// at this position.
    #[inline(always)]
    fn appended(self, first: &str, second: &str, lengths: Lengths, host: HostRange) -> Draft
        requires { self.failed ≡ false → IsDraft lengths
            (string_bytes self.text ++ (first.now ++ second.now)) }
        ensures text { result.failed ≡ false
            → Pushes self.text result.text (first.now ++ second.now) }
        ensures lengths { result.lengths ≡ lengths }
        ensures host { result.host ≡ host }
        ensures kept { result.failed ≡ false → self.failed ≡ false }
    {
        let Draft {
            mut text,
            failed,
            ..
        } = self;
        let failed = append_unless_failed(&mut text, failed, first);
        let failed = append_unless_failed(&mut text, failed, second);
        Draft {
            text,
            lengths,
            host,
            failed,
        }
    }

    /// Returns the draft with a scheme and its `:` appended.
    #[inline(always)]
    pub fn with_scheme(self, scheme: &str) -> Draft
        requires { self.failed ≡ false → lacks_all (draft_parts self) ≡ true }
        ensures adds { AddsUnlessFailed (with_scheme scheme.now) (draft_parts self)
            (draft_parts result) }
        ensures host { result.host ≡ self.host }
    {
        let lengths = Lengths {
            scheme: Some(scheme.len()),
            ..self.lengths
        };
        let host = self.host;
        self.appended(scheme, ":", lengths, host)
    }

    /// Returns the draft with `//` and an authority appended, whose host is at this position in it.
    #[inline(always)]
    pub fn with_authority(self, authority: &str, host: HostRange) -> Draft
        requires { self.failed ≡ false → lacks_authority (draft_parts self) ≡ true }
        ensures adds { AddsUnlessFailed (with_authority authority.now) (draft_parts self)
            (draft_parts result) }
        ensures host { result.host ≡ host }
    {
        let lengths = Lengths {
            authority: Some(authority.len()),
            ..self.lengths
        };
        self.appended("//", authority, lengths, host)
    }

    /// Returns the draft with userinfo and its `@` appended to the authority that was begun.
    #[inline(always)]
    pub fn with_userinfo(self, userinfo: &str) -> Draft
        requires { self.failed ≡ false → ends_in_authority any_authority (draft_parts self) ≡ true }
        ensures adds { AddsUnlessFailed (with_userinfo userinfo.now) (draft_parts self)
            (draft_parts result) }
        ensures host { let end = unwrap_or result.lengths.authority 0 in
            (result.host.start ≡ end) × (result.host.end ≡ end) }
    {
        let Draft {
            mut text,
            lengths,
            failed,
            ..
        } = self;
        let old = text.len();
        let failed = append_unless_failed(&mut text, failed, userinfo);
        let failed = append_unless_failed(&mut text, failed, "@");
        let lengths = lengths_with_longer_authority(lengths, failed, old, text.len());
        let end = lengths.authority.unwrap_or(0);
        Draft {
            text,
            lengths,
            host: HostRange { start: end, end },
            failed,
        }
    }

    /// Returns the draft with a host appended to its authority.
    #[inline(always)]
    pub fn with_host<E: Encoder, H: WithEncoder<E>>(self, host: H) -> Draft
        requires { self.failed ≡ false → ends_in_authority any_authority (draft_parts self) ≡ true }
        ensures adds { AddsUnlessFailed (with_host (H.host_text host)) (draft_parts self)
            (draft_parts result) }
        ensures start { result.host.start ≡ self.host.start }
        ensures end { result.host.end ≡ unwrap_or result.lengths.authority 0 }
        ensures host { result.failed ≡ false → IsHostText E.set (H.host_text host) }
    {
        let Draft {
            mut text,
            lengths,
            host: place,
            failed,
        } = self;
        let old = text.len();
        let failed = append_host::<E, H>(&mut text, failed, &host);
        let lengths = lengths_with_longer_authority(lengths, failed, old, text.len());
        Draft {
            text,
            lengths,
            host: HostRange {
                start: place.start,
                end: lengths.authority.unwrap_or(0),
            },
            failed,
        }
    }

    /// Returns the draft with a `:` and a port appended to its authority.
    #[inline(always)]
    pub fn with_port<P: AsPort>(self, port: P) -> Draft
        requires { self.failed ≡ false → ends_in_authority any_authority (draft_parts self) ≡ true }
        ensures adds { AddsUnlessFailed (with_port (P.port_digits port))
            (draft_parts self) (draft_parts result) }
        ensures host { result.host ≡ self.host }
        ensures digits { result.failed ≡ false
            → is_text_for digit_set (P.port_digits port) ≡ true }
    {
        let Draft {
            mut text,
            lengths,
            host,
            failed,
        } = self;
        let old = text.len();
        let begun = append_unless_failed(&mut text, failed, ":");
        let failed = append_port(&mut text, begun, &port);
        let lengths = lengths_with_longer_authority(lengths, failed, old, text.len());
        Draft {
            text,
            lengths,
            host,
            failed,
        }
    }

    /// Returns the draft with a path appended.
    #[inline(always)]
    pub fn with_path(self, path: &str) -> Draft
        requires { self.failed ≡ false → lacks_path (draft_parts self) ≡ true }
        ensures adds { AddsUnlessFailed (with_path path.now) (draft_parts self)
            (draft_parts result) }
        ensures host { result.host ≡ self.host }
    {
        let lengths = Lengths {
            path: Some(path.len()),
            ..self.lengths
        };
        let host = self.host;
        self.appended("", path, lengths, host)
    }

    /// Returns the draft with a `?` and a query appended.
    #[inline(always)]
    pub fn with_query(self, query: &str) -> Draft
        requires { self.failed ≡ false → lacks_query_and_fragment (draft_parts self) ≡ true }
        ensures adds { AddsUnlessFailed (with_query query.now) (draft_parts self)
            (draft_parts result) }
        ensures host { result.host ≡ self.host }
    {
        let lengths = Lengths {
            query: Some(query.len()),
            ..self.lengths
        };
        let host = self.host;
        self.appended("?", query, lengths, host)
    }

    /// Returns the draft with a `#` and a fragment appended.
    #[inline(always)]
    pub fn with_fragment(self, fragment: &str) -> Draft
        requires { self.failed ≡ false → is_none (draft_parts self).fragment ≡ true }
        ensures adds { AddsUnlessFailed (with_fragment fragment.now) (draft_parts self)
            (draft_parts result) }
        ensures host { result.host ≡ self.host }
    {
        let lengths = Lengths {
            fragment: Some(fragment.len()),
            ..self.lengths
        };
        let host = self.host;
        self.appended("#", fragment, lengths, host)
    }

    /// Returns the positions of the components in the draft's text.
    #[inline(always)]
    pub fn positions(&self) -> Positions
        requires whole { self.now.failed ≡ false }
        requires host { HasRightHostRange self.now }
        ensures { result ≡ positions_of (as_components (draft_parts self.now)) }
    {
        positions_from_lengths(&self.lengths, self.host, self.text.as_str())
    }

    /// Returns the error for which `build` rejects the draft's parts, if it does.
    pub fn refusal(&self) -> Option<BuildError>
        requires whole { self.now.failed ≡ false }
        ensures { result ≡ refusal (draft_parts self.now) }
    {
        path_error(
            self.lengths.scheme.is_some(),
            self.lengths.authority.is_some(),
            self.path(),
        )
    }

    /// Returns the bytes of the path, or none if there is no path.
    fn path(&self) -> &[u8]
        requires whole { self.now.failed ≡ false }
        ensures { result.now ≡ unwrap_or (draft_parts self.now).path [] }
    {
        let from_scheme = after_part(self.text.as_bytes(), 1, self.lengths.scheme);
        let from_path = after_part(from_scheme, 2, self.lengths.authority);
        match self.lengths.path {
            Some(len) => &from_path[..len],
            None => b"",
        }
    }
}

/// Returns what is after a part and its delimiters in a builder's text, or all of it without the
/// part.
fn after_part(text: &[u8], marks: usize, part: Option<usize>) -> &[u8]
    requires { IfSome part (λ len. marks + len ≤ length text.now) }
    ensures { result.now ≡ after_part marks part text.now }
{
    match part {
        Some(len) => &text[marks + len..],
        None => text,
    }
}

/// Returns whether a `:` is in the first segment of a path.
pub fn has_colon_in_first_segment(path: &[u8]) -> bool
    ensures { result ≡ has_colon_in_first_segment path.now }
{
    path.iter()
        .take_while(|byte| **byte != b'/')
        .any(|byte| *byte == b':')
}

/// Returns the error for which `build` rejects a path, if it does, by what is before the path.
#[tactic(auto, unfolding(crate::specs::Built::build_error_of_path))]
fn path_error(has_scheme: bool, has_authority: bool, path: &[u8]) -> Option<BuildError>
    ensures { result ≡ build_error_of_path has_scheme has_authority path.now }
{
    if has_authority {
        if path.is_empty() || begins_with_slash(path) {
            None
        } else {
            Some(BuildError::NonemptyRootlessPath)
        }
    } else if begins_with_two_slashes(path) {
        Some(BuildError::PathStartsWithDoubleSlash)
    } else if !has_scheme && has_colon_in_first_segment(path) {
        Some(BuildError::FirstPathSegmentContainsColon)
    } else {
        None
    }
}
