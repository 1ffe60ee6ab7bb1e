//! Texts that are mended, and the links of pages.
use crate::requests::{MayBeOutOfMemory, assert_out_of_memory, end, tried};
use crate::values::{holds, is_text};
use fluent_uri::UriRef;
use fluent_uri::pct_enc::CowStr;
use uri_mend::{Mend, MendError, trim_link};

impl MayBeOutOfMemory for MendError {
    /// Returns whether the error of mending in a test of denied memory is `OutOfMemory`.
    fn is_out_of_memory(&self) -> bool {
        matches!(*self, MendError::OutOfMemory)
    }
}

/// Tests `mend_owned` while memory is denied: the text comes back.
#[test]
fn owned_texts(rt: HostRuntime) {
    let alloc = rt.alloc();
    let text = tried!(&rt; "String::from_str", String::from_str(alloc, "/a b"));
    let made = match UriRef::<String>::mend_owned(alloc, text) {
        Ok(made) => made,
        Err((error, back)) => {
            assert_out_of_memory(&rt, "UriRef::mend_owned", &error);
            is_text(&rt, back.as_str(), "/a b");
            UriRef::<String>::mend(alloc, back.as_str()).expect(&rt, "mend")
        }
    };
    is_text(&rt, made.as_str(), "/a%20b");
    end(&rt, alloc);
}

/// Tests `trim_link` and `mend_link` while memory is denied.
#[test]
fn links_of_pages(rt: HostRuntime) {
    let alloc = rt.alloc();
    let made = tried!(&rt; "trim_link", trim_link(alloc, " a\nb "));
    is_text(&rt, made.as_str(), "ab");
    let made = tried!(&rt; "UriRef::mend_link", UriRef::<String>::mend_link(alloc, " a\nb c "));
    is_text(&rt, made.as_str(), "ab%20c");
    end(&rt, alloc);
}

/// Tests that a link without tabs and newlines is trimmed without a request for memory, that an
/// owned reference is mended without one, and that a rejected text makes none.
#[test]
fn without_requests(rt: HostRuntime) {
    let alloc = rt.alloc();
    holds(
        &rt,
        matches!(trim_link(alloc, " a b "), Ok(CowStr::Borrowed("a b"))),
        "borrowed",
    );
    let text = tried!(&rt; "String::from_str", String::from_str(alloc, "/a?b"));
    let made = UriRef::<String>::mend_owned(alloc, text).ok();
    is_text(&rt, made.expect(&rt, "a reference").as_str(), "/a?b");
    let rejected = UriRef::<String>::mend(alloc, "//a b").err();
    holds(
        &rt,
        matches!(rejected, Some(MendError::Unmendable(_))),
        "rejected",
    );
    end(&rt, alloc);
}
