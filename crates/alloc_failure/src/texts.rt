//! Texts that grow, which a denied request leaves as they were, and copies.
use crate::requests::{end, report, tried};
use crate::values::{encoded, holds, is_encoded, is_text, parsed};
use fluent_uri::pct_enc::encoder::{Data, Path};
use fluent_uri::pct_enc::{CowSlice, CowStr, EString};
use integration_tests::comparison::equal;
use std::alloc::AllocError;
use std::process::Abort;
use uri_parts::kind::IriKind;

/// Prints that a call that appends was denied memory, and checks that it left the text as it was.
fn assert_unchanged<R: Abort + Print>(rt: &R, call: &str, text: &EString<Path>, left: &str) {
    report(rt, call);
    is_text(rt, text.as_str(), left);
}

/// Tests new texts that are percent-encoded, and what is pushed to one, while memory is denied.
#[test]
fn new_and_pushed_texts(rt: HostRuntime) {
    let alloc = rt.alloc();
    let made = tried!(&rt; "with_capacity", EString::<Path>::with_capacity(alloc, 9));
    is_text(&rt, made.as_str(), "");
    holds(&rt, made.capacity() >= 9, "capacity");
    let owned = tried!(&rt; "to_owned", encoded::<_, Path>(&rt, "a%20b").to_owned(alloc));
    is_text(&rt, owned.as_str(), "a%20b");
    let mut text = EString::<Path>::new(alloc);
    if let Err(AllocError) = text.push('a') {
        assert_unchanged(&rt, "push", &text, "");
        text.push('a').expect(&rt, "memory");
    }
    is_text(&rt, text.as_str(), "a");
    let more = encoded(&rt, "/01234567890123456789");
    if let Err(AllocError) = text.push_estr(more) {
        assert_unchanged(&rt, "push_estr", &text, "a");
        text.push_estr(more).expect(&rt, "memory");
    }
    is_text(&rt, text.as_str(), "a/01234567890123456789");
    end(&rt, alloc);
}

/// Tests that `encode_str` leaves the text as it was if memory is denied after some was appended.
#[test]
fn encoded_texts(rt: HostRuntime) {
    let mut text = EString::<Path>::new(rt.alloc());
    let more = "é/é/é/é/é";
    if let Err(AllocError) = text.encode_str::<Data>(more) {
        assert_unchanged(&rt, "encode_str", &text, "");
        text.encode_str::<Data>(more).expect(&rt, "memory");
    }
    let wanted = "%C3%A9%2F%C3%A9%2F%C3%A9%2F%C3%A9%2F%C3%A9";
    is_text(&rt, text.as_str(), wanted);
    end(&rt, rt.alloc());
}

/// Tests that `encode_bytes` leaves the text as it was if memory is denied.
#[test]
fn encoded_bytes(rt: HostRuntime) {
    let mut text = EString::<Path>::new(rt.alloc());
    let more = b"a\xFF\xC3\xA9 \xC3 b";
    if let Err(AllocError) = text.encode_bytes::<Data>(more) {
        assert_unchanged(&rt, "encode_bytes", &text, "");
        text.encode_bytes::<Data>(more).expect(&rt, "memory");
    }
    is_text(&rt, text.as_str(), "a%FF%C3%A9%20%C3%20b");
    end(&rt, rt.alloc());
}

/// Tests copies of decoded bytes and texts while memory is denied.
#[test]
fn copies(rt: HostRuntime) {
    let alloc = rt.alloc();
    let wanted = b"\xC3\xA9\xFF".as_slice();
    let copied = tried!(&rt; "CowSlice::into_owned", CowSlice::Borrowed(wanted).into_owned(alloc));
    equal(copied.as_slice(), wanted).expect(&rt, "CowSlice::into_owned");
    let copied = tried!(&rt; "CowStr::into_owned", CowStr::Borrowed("é").into_owned(alloc));
    is_text(&rt, copied.as_str(), "é");
    end(&rt, alloc);
}

/// Tests a copy of an IRI that gets another fragment while memory is denied.
#[test]
fn fragments(rt: HostRuntime) {
    let given = Some(encoded(&rt, "0123456789012345678901234567890123456789"));
    let iri = parsed::<_, IriKind>(&rt, "s:é#f");
    let mut owned = tried!(&rt; "to_owned", iri.to_owned(rt.alloc()));
    if let Err(AllocError) = owned.set_fragment(given) {
        report(&rt, "set_fragment");
        is_text(&rt, owned.as_str(), "s:é#f");
        is_encoded(&rt, owned.fragment(), "f");
        owned.set_fragment(given).expect(&rt, "memory");
    }
    let wanted = "s:é#0123456789012345678901234567890123456789";
    is_text(&rt, owned.as_str(), wanted);
    end(&rt, rt.alloc());
}
